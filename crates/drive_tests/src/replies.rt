//! Single packets of one client, and what goes out for each.
use crate::acting::{answered, plain};
use crate::clients::{CONNACK, CONNECT, join};
use std::alloc::Global;
use std::test::Fail;
use text_io::RunError;

// A name, whether it comes first or after a CONNECT, the bytes that come in, and the line that goes out.
const REPLIES: &str = "\
assigned_identifier first 100D00044D5154540502003C000000 201c00001912000d6175746f2d3030303030303031240125002700010000
older_version first 100E00044D5154540402003C00027731 2003008400
with_a_will first 100800044D5154540506 2003008300
authentication first 101300044D5154540502003C041500016D00027731 2003008c00
maximum_packet_size_63 first 101400044D5154540502003C05270000003F00027731 2003008300
maximum_packet_size_4 first 101400044D5154540502003C05270000000400027731 -
protocol_error first 101200044D5154540502003C0321000000027731 2003008200
malformed first 100F00044D5154540503003C0000027731 -
user_name_and_password first 101500044D51545405C2003C0000027731000175000170 200c000009240125002700010000
too_large first 32FDFF03 -
client_identifier_of_129_bytes first 108E0100044D5154540502003C000081616161616161616161616161616161616161616161616161616161616161616161616161616161616161616161616161616161616161616161616161616161616161616161616161616161616161616161616161616161616161616161616161616161616161616161616161616161616161616161616161616161616161616161 2003008500
ping_and_second_connect first C000 -
older_version connected 100E00044D5154540402003C00027731 e00182
with_a_will connected 100800044D5154540506 e00182
length_not_minimal connected 829200 e00181
length_not_minimal connected 00 e00181
length_unfinished connected 82FFFFFF -
length_of_five_bytes connected 82FFFFFFFF e00181
length_not_minimal connected 82FFFFFF00 e00181
too_large connected 82FFFFFF7F e00195
too_large connected 32FDFF03 e00195
unsupported_publishes connected 300700036A6F620041 e00183
unsupported_publishes connected 340900036A6F6200070041 e0019b
unsupported_publishes connected 330900036A6F6200070041 e0019a
topic_alias connected 320C00036A6F6200070323000141 e00194
empty_topic connected 3206000000070041 e00182
wildcard_in_topic connected 320700012B00070041 e00181
foreign connected 62020001 e00182
content_type_twice connected 321000036A6F620007080300016103000161 e00182
identifier_0_first connected 320900036A6F62000001FF e00182
unknown_property connected 320900036A6F62000701FF e00181
property_length_not_minimal connected 821300018000000C2473686172652F672F6A6F6201 e00181
expiry_at_the_end connected E00700051100000001 e00182
unsubscribe connected A206000100000161 b00400010011
share_without_a_filter connected 820E00010000082473686172652F6701 90040001008f
filter_that_is_none connected 82080001000002612301 90040001008f
at_most_once connected 8212000100000C2473686172652F672F6A6F6200 900400010083
subscription_identifier connected 82090001020B0500016101 900400010083
no_local connected 8212000100000C2473686172652F672F6A6F6205 e00182
";

// What goes out for these digits, first or after a CONNECT, without the CONNACK of that.
fn reply_to(alloc: Global, place: &str, digits: &str) -> Result<Vec<u8>, RunError> {
    let before: &[u8] = if place == "connected" { CONNECT } else { b"" };
    let input = join(alloc, &[before, digits.as_bytes()])?;
    let written = answered(alloc, plain(alloc), &input)?;
    let known = if place == "connected" {
        CONNACK.len()
    } else {
        0
    };
    let rest = written.get(known..).unwrap_or(b"");
    Ok(Vec::from_slice(alloc, rest)?)
}

#[test]
fn replies(rt: HostRuntime) -> Result<(), Fail> {
    for line in REPLIES.lines() {
        let mut words = line.split(' ');
        let _name = words.next();
        let place = words.next().ok_or("a place")?;
        let reply = reply_to(rt.alloc(), place, words.next().ok_or("digits")?)?;
        let wanted = words.next().ok_or("a reply")?.as_bytes();
        match reply.as_slice() {
            [] => assert_eq!(rt; wanted, b"-".as_slice(), "{line}"),
            [text @ .., _end] => assert_eq!(rt; text, wanted, "{line}"),
        }
    }
    Ok(())
}
