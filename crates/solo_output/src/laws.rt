//! Laws of the model: it is what a server does, and what it comes to is lawful. Each is the contract of a function that does nothing,
//! stated over the definitions that the contracts of [`solo`](crate::solo) and of [`drive_client`](drive::drive_client) cite.
ghost use Rattle.std.specs.Prelude.{◌≡◌, ◌≢◌, ◌⊎◌, ◌↔◌, ◌+◌, ◌<◌, ◌≤◌, ℕ, min, true, List, [], ◌∷◌, ◌++◌, length, take, slice_get, Option, Some, None, Ok, Err};
ghost use Rattle.std.specs.List.{AllByRecursion};
ghost use Rattle.member_window.specs.Identifiers.{IsLeastFree, AreDistinct};
ghost use Rattle.mqtt_fields.specs.declared.fault.StreamFault.{StreamFault};
ghost use Rattle.mqtt_packet.specs.declared.packet.Connect.{Connect};
ghost use Rattle.mqtt_packet.specs.declared.packet.Packet.{Packet};
ghost use Rattle.mqtt_packet.specs.declared.packet.Packet.TheVariants as kinds;
ghost use Rattle.mqtt_packet.specs.declared.packet.Puback.{Puback};
ghost use Rattle.mqtt_packet.specs.declared.packet.Publish.{Publish};
ghost use Rattle.mqtt_packet.specs.declared.packet.Subscribe.{Subscribe};
ghost use Rattle.mqtt_packet.specs.declared.packet.Unsubscribe.{Unsubscribe};
ghost use Rattle.mqtt_wire.specs.Stream.{Reads};
ghost use Rattle.group_jobs.specs.declared.message.Message.{Message};
ghost use Rattle.mqtt_topic.specs.Names.{Share};
ghost use Rattle.mqtt_topic.specs.Routes.{most_routes, slot_of, AreDistinct as HaveDistinctTexts};
ghost use Rattle.local_group.specs.Groups.{life};
ghost use Rattle.session_desk.specs.declared.session.Membership.TheVariants.{NotMember, Member, Leaving};
ghost use Rattle.conn_rules.specs.declared.publishing.PublishAnswer.TheVariants.{Offer};
ghost use Rattle.conn_rules.specs.Connecting.{or_else};
ghost use Rattle.conn_rules.specs.HandOuts.{is_discarded};
ghost use Rattle.conn_rules.specs.Packets.{puback};
ghost use Rattle.conn_rules.specs.Publishing.{publish_answer, puback_code};
ghost use Rattle.conn_rules.specs.Setups.{most_capacity};
ghost use Rattle.conn_rules.specs.declared.setup.Setup.{Setup};
ghost use Rattle.drive.specs.Streams.{client_script_of};
ghost use Rattle.drive.specs.Transcripts.{IsClientOutput};
ghost use Rattle.solo_output.specs.Groups.{SoloState, HandOut, opening, shares_of, accepted_in, handed_in, open_identifiers, waiting_in, unacknowledged};
ghost use Rattle.solo_output.specs.Groups.Outcome.{Unacknowledged, Acknowledged, Discarded};
ghost use Rattle.solo_output.specs.Groups.Phase.{Connected, Closed};
ghost use Rattle.solo_output.specs.HandOuts.{quota, least_free, sends_nothing};
ghost use Rattle.solo_output.specs.Publishing.{matching};
ghost use Rattle.solo_output.specs.Replies.{farewell, reply, solo_step, solo_steps};
ghost use Rattle.solo_output.specs.Report.{counts_of};
ghost use Rattle.solo_output.specs.Streams.{stream_of};
ghost use Rattle.solo_output.specs.Output.{solo_output, IsOutputFor};
ghost use Rattle.solo_output.specs.Memberships.{AsksFor, AsksToLeave, Joins, Leaves, subscription_in};
ghost use Rattle.solo_output.specs.Runs.{run_of, takers, taken, published, sent_of, sent_in, jobs_of, IsInGroup, IsStill, IsSettledBy};

/// **The output that [`solo`](crate::solo) writes is that of a run of a server**, with at most eight shares bound and a capacity of at most 65,536, as each
/// `Setup` has: what a server says and reports when the client's stream comes to it (`IsClientOutput`), which is what [`drive_client`](drive::drive_client)
/// writes, is the output for the input: the lines spell a stream, that is read as packets and perhaps a fault, and the output is `solo_output` of these
/// (`closed_form`); and so for whatever the stream is read as (`each_reading`), of which there is one. Where a line is not hex, the events of the input and its
/// stream name the same first such line (`bad_line`).
pub fn solo_output_law()
    ensures closed_form { (setup : Setup) (input output : List ℕ) → length setup.groups ≤ 8 → setup.capacity ≤ most_capacity →
        IsClientOutput setup input output → IsOutputFor setup input output }
    ensures each_reading { (setup : Setup) (input output stream : List ℕ) (packets : List Packet) (rest : List ℕ) (fault : Option StreamFault) →
        length setup.groups ≤ 8 → setup.capacity ≤ most_capacity → IsClientOutput setup input output → stream_of input ≡ Ok stream → Reads stream packets rest fault →
        output ≡ solo_output setup packets fault }
    ensures bad_line { (input : List ℕ) (line : ℕ) → (client_script_of input ≡ Err line) ↔ (stream_of input ≡ Err line) }
{}

/// **Each input has one output**, or a first line that is not hex.
pub fn one_output_law()
    ensures exists { (setup : Setup) (input : List ℕ) →
        ((line : ℕ) × (stream_of input ≡ Err line)) ⊎ ((output : List ℕ) × IsOutputFor setup input output) }
    ensures unique { (setup : Setup) (input one other : List ℕ) → IsOutputFor setup input one → IsOutputFor setup input other → one ≡ other }
{}

/// **The identifier that `least_free` computes** is the least that is free (2.2.1; that it is the least is the profile's), and no other is.
pub fn identifier_law()
    ensures least { (used : List ℕ) → IsLeastFree used (least_free used) }
    ensures only { (used : List ℕ) (identifier : ℕ) → IsLeastFree used identifier → least_free used ≡ identifier }
{}

/// **Every run is lawful**: what the model keeps on every setup, whatever packets come, of the client and of each group.
///
/// - `receive_maximum`: no more hand-outs are unacknowledged than the Receive Maximum of the CONNECT, or than 65,535 where it has none
///   (3.1.2.11.3, 4.9), nor than the limit of the setup (profile); and while the client is connected, the quota is the least of these and of 256 (profile). `quota`: nor more than the quota.
/// - `identifiers`: the unacknowledged identifiers are 1 to 256 (profile), and no two are equal (2.2.1).
/// - `groups`: eight shares at most are bound, of differing texts, where those of the setup are so (profile); `slots`: each keeps its slot.
/// - `accepted`: a group accepted the messages of the PUBLISH packets that were offered when it was among those that take them: its filter matched
///   (4.7), and it had room; in order, and no others. `answered`: the PUBACK of such a packet says whether no filter matched, all groups that match
///   took the message, or some did not (3.4.2.1).
/// - `waiting`: no group accepted more than 2^40 messages, the most that one connection may publish to a group, and in none more wait than the
///   capacity (profile).
/// - `in_order`: the PUBLISH packets that were sent are one for each hand-out that was not discarded, and those of a group are its first accepted
///   messages, without the discarded ones, in order, each under the Packet Identifier and the Subscription Identifier of its hand-out, with DUP 0. So
///   none goes out twice, and none before an older one (4.6).
/// - `discarded`: a hand-out is discarded exactly where its message came with the Message Expiry Interval 0, as all happens at one moment (3.3.2.3.3), or
///   where its PUBLISH, under its Subscription Identifier, is longer than the Maximum Packet Size of the CONNECT, if that has one (3.1.2.11.4).
/// - `members`: what a packet brings out goes to a member of its group, under the Subscription Identifier that the client has then, or none
///   (3.3.2.3.8), and the least Packet Identifier that is free by then; what is discarded uses none. `one_group`: what is
///   unacknowledged is of the one group whose member the client is, or which it is leaving (profile); `bound`: that group is there.
/// - `settles`: a PUBACK gives its Reason Code to the hand-out that is unacknowledged under its identifier; `settled`: and a hand-out has a code only so
///   (4.3.2).
/// - `for_good`: a hand-out keeps its group, its identifiers and, once it has one, its Reason Code; what is discarded stays so, and is so from the first.
/// - `one_fate`: the counts of a group's report add up to that of its accepted messages (profile).
/// - `eager`: while a client is connected and a member, a message of its group waits only where the quota has no room (profile).
/// - `closed`: once its connection is closed nothing is sent, also to a fault, and nothing changes.
pub fn every_run_is_lawful()
    ensures receive_maximum { (setup : Setup) (connect : Connect) (packets : List Packet) →
        let asked = min setup.max_inflight (or_else 65535 connect.properties.receive_maximum) in
        let solo = (run_of setup (kinds.Connect connect ∷ packets)).solo in
        (length (unacknowledged solo) ≤ asked) × (solo.phase ≡ Connected → quota solo ≡ min asked 256) }
    ensures quota { (setup : Setup) (packets : List Packet) → let solo = (run_of setup packets).solo in
        length (unacknowledged solo) ≤ quota solo }
    ensures identifiers { (setup : Setup) (packets : List Packet) → let used = unacknowledged (run_of setup packets).solo in
        AllByRecursion (λ identifier. (1 ≤ identifier) × (identifier ≤ 256)) used × AreDistinct used }
    ensures groups { (setup : Setup) (packets : List Packet) → length setup.groups ≤ 8 → HaveDistinctTexts setup.groups →
        let shares = shares_of (run_of setup packets).solo.groups in (length shares ≤ 8) × HaveDistinctTexts shares }
    ensures slots { (setup : Setup) (packets more : List Packet) → let solo = (run_of setup packets).solo in
        (later : List Share) × (shares_of (solo_steps more solo).solo.groups ≡ shares_of solo.groups ++ later) }
    ensures accepted { (setup : Setup) (packets : List Packet) (slot : ℕ) →
        accepted_in slot (run_of setup packets).solo.groups ≡ taken packets slot (opening setup.capacity setup.max_inflight setup.groups) }
    ensures answered { (solo : SoloState) (publish : Publish) (identifier : ℕ) → solo.phase ≡ Connected → publish_answer publish ≡ Offer identifier →
        (reply (kinds.Publish publish) solo).packet
        ≡ Some (puback identifier (puback_code (length (matching publish.topic solo)) (length (takers publish.topic solo)))) }
    ensures waiting { (setup : Setup) (packets : List Packet) (slot : ℕ) → let solo = (run_of setup packets).solo in
        (length (accepted_in slot solo.groups) ≤ life) × (length (waiting_in slot solo) ≤ setup.capacity) }
    ensures in_order { (setup : Setup) (packets : List Packet) (slot : ℕ) → let run = run_of setup packets in
        let accepted = accepted_in slot run.solo.groups in let hand_outs = handed_in slot run.solo.handed_out in
        (length (published run.sent) ≡ length (sent_of run.solo.handed_out)) × (length hand_outs ≤ length accepted)
        × (sent_in slot (published run.sent) run.solo.handed_out ≡ jobs_of accepted hand_outs) }
    ensures discarded { (setup : Setup) (connect : Connect) (packets : List Packet) (slot place : ℕ) (message : Message) (one : HandOut) →
        let solo = (run_of setup (kinds.Connect connect ∷ packets)).solo in
        slice_get (accepted_in slot solo.groups) place ≡ Some message → slice_get (handed_in slot solo.handed_out) place ≡ Some one →
        (one.outcome ≡ Discarded)
        ↔ (is_discarded (record { at = 0; subscription = one.subscription; maximum_packet_size = connect.properties.maximum_packet_size }) message ≡ true) }
    ensures members { (setup : Setup) (packets : List Packet) (packet : Packet) (place : ℕ) (one : HandOut) →
        let solo = (run_of setup packets).solo in let next = (solo_step packet solo).solo in
        length solo.handed_out ≤ place → slice_get next.handed_out place ≡ Some one →
        (next.membership ≡ Member one.slot) × (one.subscription ≡ next.subscription) × IsLeastFree (open_identifiers (take place next.handed_out)) one.identifier }
    ensures one_group { (setup : Setup) (packets : List Packet) (place : ℕ) (one : HandOut) → let solo = (run_of setup packets).solo in
        slice_get solo.handed_out place ≡ Some one → one.outcome ≡ Unacknowledged → IsInGroup solo.membership one.slot }
    ensures bound { (setup : Setup) (packets : List Packet) (slot : ℕ) → let solo = (run_of setup packets).solo in
        IsInGroup solo.membership slot → slot < length solo.groups }
    ensures settles { (setup : Setup) (packets : List Packet) (puback : Puback) (place : ℕ) (one : HandOut) →
        let solo = (run_of setup packets).solo in solo.phase ≡ Connected →
        slice_get solo.handed_out place ≡ Some one → one.outcome ≡ Unacknowledged → puback.packet_identifier ≡ one.identifier →
        (settled : HandOut) × (slice_get (solo_step (kinds.Puback puback) solo).solo.handed_out place ≡ Some settled)
        × IsStill one settled × (settled.outcome ≡ Acknowledged puback.reason_code) }
    ensures settled { (setup : Setup) (packets : List Packet) (place code : ℕ) (one : HandOut) →
        slice_get (run_of setup packets).solo.handed_out place ≡ Some one → one.outcome ≡ Acknowledged code → IsSettledBy setup packets place code }
    ensures for_good { (setup : Setup) (packets more : List Packet) (place : ℕ) (one : HandOut) → let solo = (run_of setup packets).solo in
        slice_get solo.handed_out place ≡ Some one →
        (other : HandOut) × (slice_get (solo_steps more solo).solo.handed_out place ≡ Some other) × IsStill one other }
    ensures one_fate { (setup : Setup) (packets : List Packet) (slot : ℕ) → let solo = (run_of setup packets).solo in
        let accepted = length (accepted_in slot solo.groups) in
        let fates = counts_of solo.terms.session_expiry_interval accepted (handed_in slot solo.handed_out) in
        fates.acknowledged + fates.refused + fates.held + fates.queued + fates.returned + fates.discarded ≡ accepted }
    ensures eager { (setup : Setup) (packets : List Packet) (slot : ℕ) → let solo = (run_of setup packets).solo in
        solo.phase ≡ Connected → solo.membership ≡ Member slot →
        (waiting_in slot solo ≡ []) ⊎ (length (unacknowledged solo) ≡ quota solo) }
    ensures closed { (solo : SoloState) (packets : List Packet) → solo.phase ≡ Closed →
        (solo_steps packets solo ≡ sends_nothing solo) × ((fault : Option StreamFault) → farewell fault solo ≡ None) }
{}

/// **How a client comes into a group, and out of it**, on every setup and whatever packets come (sections 3.8 to 3.11, 4.8.2).
///
/// - `joins`: where the SUBACK has 01 for the text of a share, the client is a member of the group of that share; `joined`: and it becomes one only so
///   (3.8.3, 3.9.3). `admits`: a client in no group that asks for a share which is served joins a group, where that share is bound or there is a slot
///   for it; `readmits`: and one that is in the group of the share, also one that is leaving it, joins that group (profile).
/// - `identifies`: where the SUBACK has 01 for the text of a share, the client has the Subscription Identifier of the SUBSCRIBE from then on, or none
///   where that has none; `identified`: and with any other packet it keeps what it has (3.8.2.1.2, 3.8.4).
/// - `leaves`: the UNSUBACK has 00 only for the share of the member's own group, and the client is then leaving it, or in no group where nothing is
///   unacknowledged; `left`, `leaving`: and a member ceases to be one, and a client is leaving, only so. `releases`: a member that asks to leave does
///   (3.10.3, 3.11.3).
/// - `parts`: who is leaving a group is in it after the next packet too, or in none with nothing unacknowledged; `owes`: and while it is leaving,
///   something is unacknowledged (3.10.4).
pub fn membership_is_lawful()
    ensures joins { (solo : SoloState) (packet : Packet) (slot : ℕ) → let next = (solo_step packet solo).solo in
        Joins packet (reply packet solo) slot → next.membership ≡ Member slot }
    ensures joined { (solo : SoloState) (packet : Packet) (slot : ℕ) → let next = (solo_step packet solo).solo in
        next.membership ≡ Member slot → (solo.membership ≡ Member slot) ⊎ Joins packet (reply packet solo) slot }
    ensures admits { (solo : SoloState) (subscribe : Subscribe) (share : Share) → let packet = kinds.Subscribe subscribe in
        AsksFor subscribe share solo → solo.membership ≡ NotMember →
        (slot_of share.text (shares_of solo.groups) ≢ None) ⊎ (length solo.groups < most_routes) →
        (slot : ℕ) × Joins packet (reply packet solo) slot }
    ensures readmits { (solo : SoloState) (subscribe : Subscribe) (share : Share) (slot : ℕ) → let packet = kinds.Subscribe subscribe in
        AsksFor subscribe share solo → IsInGroup solo.membership slot → slot_of share.text (shares_of solo.groups) ≡ Some slot →
        Joins packet (reply packet solo) slot }
    ensures identifies { (solo : SoloState) (packet : Packet) (slot : ℕ) → let next = (solo_step packet solo).solo in
        Joins packet (reply packet solo) slot → next.subscription ≡ subscription_in packet }
    ensures identified { (solo : SoloState) (packet : Packet) → let next = (solo_step packet solo).solo in
        (next.subscription ≡ solo.subscription) ⊎ ((slot : ℕ) × Joins packet (reply packet solo) slot) }
    ensures leaves { (solo : SoloState) (packet : Packet) (slot : ℕ) → let next = (solo_step packet solo).solo in
        Leaves packet (reply packet solo) slot →
        (solo.membership ≡ Member slot) × ((next.membership ≡ Leaving slot) ⊎ ((next.membership ≡ NotMember) × (unacknowledged next ≡ []))) }
    ensures left { (solo : SoloState) (packet : Packet) (slot : ℕ) → let next = (solo_step packet solo).solo in
        solo.membership ≡ Member slot → (next.membership ≡ Member slot) ⊎ Leaves packet (reply packet solo) slot }
    ensures leaving { (solo : SoloState) (packet : Packet) (slot : ℕ) → let next = (solo_step packet solo).solo in
        next.membership ≡ Leaving slot → (solo.membership ≡ Leaving slot) ⊎ Leaves packet (reply packet solo) slot }
    ensures releases { (solo : SoloState) (unsubscribe : Unsubscribe) (slot : ℕ) → let packet = kinds.Unsubscribe unsubscribe in
        AsksToLeave unsubscribe slot solo → solo.membership ≡ Member slot → Leaves packet (reply packet solo) slot }
    ensures parts { (solo : SoloState) (packet : Packet) (slot : ℕ) → let next = (solo_step packet solo).solo in
        solo.membership ≡ Leaving slot → IsInGroup next.membership slot ⊎ ((next.membership ≡ NotMember) × (unacknowledged next ≡ [])) }
    ensures owes { (setup : Setup) (packets : List Packet) (slot : ℕ) → let solo = (run_of setup packets).solo in
        solo.membership ≡ Leaving slot → unacknowledged solo ≢ [] }
{}
