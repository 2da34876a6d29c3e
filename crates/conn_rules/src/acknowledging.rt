//! What a PUBACK makes of a job (section 3.4).
ghost use Rattle.std.specs.Prelude.{◌≡◌};
ghost use Rattle.conn_rules.specs.Acknowledging.{fate_of};

use group_jobs::Fate;
use mqtt_packet::ReasonCode;

/// What a PUBACK of this Reason Code settles a job as: a code below 80 hex acknowledges it, any other refuses it.
pub fn fate_of(reason_code: ReasonCode) -> Fate
    ensures { result ≡ fate_of reason_code }
{
    if reason_code.is_failure() {
        Fate::Refused
    } else {
        Fate::Acknowledged
    }
}
