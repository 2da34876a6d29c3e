//! Writers of a reason code with the properties after it (sections 3.4.2 and 3.14.2).

ghost use Rattle.std.specs.Prelude.{◌<◌, length};
ghost use Rattle.mqtt_fields.specs.Buffers.{HasRoom, Appends};
ghost use Rattle.mqtt_fields.specs.FieldRanges.{PubackFits, DisconnectFits};
ghost use Rattle.mqtt_fields.specs.PropertyLists.{puback_list, disconnect_list};
ghost use Rattle.mqtt_wire.specs.Writing.{reason_front, reason_bytes};

use mqtt_fields::{
    disconnect_list_size, puback_list_size, put_byte, put_disconnect_list, put_puback_list,
    put_variable_byte_integer,
};
use mqtt_packet::{DisconnectProperties, PubackProperties, ReasonCode};

/// Writes the reason code and the properties of a PUBACK (section 3.4.2).
pub(crate) fn put_puback_reason(out: &mut Vec<u8>, code: ReasonCode, list: &PubackProperties)
    requires size { length (puback_list list.now) < 268435456 }
    requires room { HasRoom out.old (reason_bytes code (puback_list list.now)) }
    ensures appended { Appends out.old (reason_bytes code (puback_list list.now)) out.new }
    ensures fits { PubackFits list.now }
{
    put_reason(out, code, puback_list_size(list));
    put_puback_list(out, list);
}

/// Writes the reason code and the properties of a DISCONNECT (section 3.14.2).
pub(crate) fn put_disconnect_reason(
    out: &mut Vec<u8>,
    code: ReasonCode,
    list: &DisconnectProperties,
)
    requires size { length (disconnect_list list.now) < 268435456 }
    requires room { HasRoom out.old (reason_bytes code (disconnect_list list.now)) }
    ensures appended { Appends out.old (reason_bytes code (disconnect_list list.now)) out.new }
    ensures fits { DisconnectFits list.now }
{
    put_reason(out, code, disconnect_list_size(list));
    put_disconnect_list(out, list);
}

/// Writes a reason code, and the length of so many bytes of properties after it. With none the length is left out, and then
/// a code of 0 too.
fn put_reason(out: &mut Vec<u8>, code: ReasonCode, size: usize)
    requires size { size < 268435456 }
    requires room { HasRoom out.old (reason_front code size) }
    ensures { Appends out.old (reason_front code size) out.new }
{
    if size > 0 {
        put_byte(out, code.get());
        put_variable_byte_integer(out, 3, size as u32);
    } else if code != ReasonCode::SUCCESS {
        put_byte(out, code.get());
    }
}
