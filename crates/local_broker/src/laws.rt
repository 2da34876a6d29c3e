//! Laws of a broker on one thread: what holds whatever happens to it. Each is the contract of a function that does nothing, stated
//! over the definitions that the contracts of [`LocalSupply`](crate::LocalSupply) cite.
ghost use Rattle.std.specs.Prelude.{◌≡◌, ℕ, ◌≤◌, List, Some, Ok, slice_get};
ghost use Rattle.mqtt_topic.specs.Names.{Share};
ghost use Rattle.group_jobs.specs.Stamps.{Held};
ghost use Rattle.limits.specs.Limits.{default_sessions};
ghost use Rattle.session_desk.specs.Hands.{DeskLaw, living_in};
ghost use Rattle.local_group.specs.Groups.{Group};
ghost use Rattle.local_broker.specs.Broker.{Broker, IsClosed, IsNewBroker};
ghost use Rattle.local_broker.specs.HandOuts.{handed_by_all, handed_in_all, seen_by_group};
ghost use Rattle.local_broker.specs.Histories.{Happening, HappensAll, AreRunning, OnlyEnds, HasOut, NoneSpends};
ghost use Rattle.conn_supply.specs.SupplyCalls.{SupplyCall};
ghost use Rattle.conn_supply.specs.SupplyCalls.SupplyCall.{Take, TakeBack};
ghost use Rattle.conn_laws.specs.Asking.{IsSameQuestion, HadMemory};
ghost use Rattle.conn_laws.specs.Publishers.{CallsFrom};
ghost use Rattle.conn_laws.specs.ReturnedFirst.{CallsReturnedFirst};
ghost use Rattle.local_broker.specs.Alike.{AreAlike};
ghost use Rattle.local_broker.specs.Calls.{Calls, Closes};
ghost use Rattle.local_broker.specs.Places.{GroupPlace};
ghost use Rattle.local_broker.specs.Publishers.{AcceptsThrough, AcceptsNothing, AllAddOnly};
ghost use Rattle.local_broker.specs.Reporting.{TellsLine};
ghost use Rattle.local_broker.specs.ReturnedFirst.{AllServeReturnedFirst};

/// **The desk law holds always**, whatever calls are made of a new broker: no two sessions of one client that are lent
/// or parked, each row's session its own, and none that is parked is ending (`kept`). At most 256 are lent or parked (`few`).
pub fn desk_law()
    ensures kept { (capacity : ℕ) (shares : List Share) (happenings : List Happening) (first b : Broker) →
        IsNewBroker capacity shares first → HappensAll first happenings b → DeskLaw b.desk.rows b.desk.made }
    ensures few { (capacity : ℕ) (shares : List Share) (happenings : List Happening) (first b : Broker) →
        IsNewBroker capacity shares first → HappensAll first happenings b → living_in b.desk.rows ≤ default_sessions }
{}

/// **Each group's events are a run** to where its jobs are, whatever calls are made of a new broker; and it has the number of its
/// slot. So every law of runs holds of each of the groups.
pub fn running_law()
    ensures { (capacity : ℕ) (shares : List Share) (happenings : List Happening) (first b : Broker) →
        IsNewBroker capacity shares first → HappensAll first happenings b → AreRunning b }
{}

/// **After the close** nothing is accepted and handed out: a closed broker stays closed, and all that is added to the events of a
/// group ends a hand-out.
pub fn closing_law()
    ensures closed { (happenings : List Happening) (old b : Broker) →
        IsClosed old → HappensAll old happenings b → IsClosed b }
    ensures only_ends { (happenings : List Happening) (old b : Broker) →
        IsClosed old → HappensAll old happenings b →
        (slot : ℕ) (group : Group) → slice_get b.groups slot ≡ Some group → OnlyEnds old slot group }
{}

/// **Who spends what it was handed can.** A message that a place was handed is out there, and stays so whatever else happens, until
/// it is settled or given back: so it is never taken for a stranger's, and let go.
pub fn holding_law()
    ensures taken { (old b : Broker) (place after : GroupPlace) (envelope : Held) →
        Calls old (Take place after (Ok (Some envelope))) b → HasOut b place envelope }
    ensures taken_back { (old b : Broker) (place after : GroupPlace) (envelope : Held) →
        Calls old (TakeBack place after (Ok (Some envelope))) b → HasOut b place envelope }
    ensures stays { (happenings : List Happening) (old b : Broker) (place : GroupPlace) (envelope : Held) →
        HasOut old place envelope → HappensAll old happenings b → NoneSpends envelope.stamp happenings → HasOut b place envelope }
{}

/// **What places are handed is what the events of the groups tell**: whatever calls are made of a new broker, the hand-outs among
/// the events of a group, first and later, are those of its places, in their order, each with its place and its job.
pub fn hand_out_law()
    ensures { (capacity : ℕ) (shares : List Share) (happenings : List Happening) (first b : Broker) →
        IsNewBroker capacity shares first → HappensAll first happenings b →
        (slot : ℕ) (group : Group) → slice_get b.groups slot ≡ Some group →
        handed_in_all group.events ≡ seen_by_group slot (handed_by_all happenings) }
{}

/// **A connection publishes through the port of its number**: whatever a group accepts by the calls of a connection, it accepts through that port. And
/// nothing is accepted by the close, nor after it (`close`).
pub fn publisher_law()
    ensures calls { (number : ℕ) (old new : Broker) → CallsFrom Calls number old new → AllAddOnly (AcceptsThrough number) old new }
    ensures close { (happenings : List Happening) (old closed new : Broker) →
        Closes old closed → HappensAll closed happenings new → AllAddOnly AcceptsNothing old new }
{}

/// **What was given back is handed out first** (profile): in each group, whenever a message is first handed out, none waits that was given back. It is
/// so in a new broker (`new`); and it stays so, whatever is called of it, where each call that hands a place a message of the queue stands
/// directly after one that asked for a message that was given back, and found none (`calls`); and in the close (`close`).
pub fn returned_first_law()
    ensures new { (capacity : ℕ) (shares : List Share) (b : Broker) → IsNewBroker capacity shares b → AllServeReturnedFirst b }
    ensures calls { (old new : Broker) → CallsReturnedFirst Calls old new → AllServeReturnedFirst old → AllServeReturnedFirst new }
    ensures close { (old new : Broker) → Closes old new → AllServeReturnedFirst old → AllServeReturnedFirst new }
{}

/// **A broker answers each question in one way**, memory aside: of two brokers that are alike and keep the desk law, each answers a call
/// with the same arguments as the other does, and they are alike after it (`one`), and after the close (`closed`). New ones of the
/// same shares are alike (`new`), and of brokers that are alike each share's line is the same (`told`).
pub fn one_answer_law()
    ensures new { (capacity : ℕ) (shares : List Share) (a b : Broker) →
        IsNewBroker capacity shares a → IsNewBroker capacity shares b → AreAlike a b }
    ensures one { (a b a' b' : Broker) (supply_call its : SupplyCall GroupPlace) →
        AreAlike a b → DeskLaw a.desk.rows a.desk.made → IsSameQuestion supply_call its → HadMemory supply_call → HadMemory its →
        Calls a supply_call a' → Calls b its b' → (supply_call ≡ its) × AreAlike a' b' }
    ensures closed { (a b a' b' : Broker) → AreAlike a b → Closes a a' → Closes b b' → AreAlike a' b' }
    ensures told { (a b : Broker) (slot : ℕ) (line line' : List ℕ) →
        AreAlike a b → TellsLine a slot line → TellsLine b slot line' → line ≡ line' }
{}
