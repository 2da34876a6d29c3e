//! Where a broker on TCP listens.
ghost use Rattle.std.specs.Prelude.{◌≡◌};
ghost use Rattle.tcp_server.specs.Refusals.{open_fault, metrics_fault};

use metrics::{MetricsServer, OpenError};
use std::alloc::Global;
use std::net::{Ipv4Addr, Net};
use tcp_edge::{ListenError, TcpSource};
use text_io::DeviceFault;

/// An address of this machine, and the ports of it at which a broker listens.
#[derive(Clone, Copy, Debug, PartialEq, Eq)]
pub struct ListenAt {
    pub address: Ipv4Addr,
    /// The port for MQTT; at 0 the system chooses one.
    pub port: u16,
    /// The port for metrics, by HTTP; at 0 there are none.
    pub metrics: u16,
}

impl ListenAt {
    /// Listens for who asks for metrics; nowhere where there are none.
    ///
    /// # Errors
    ///
    /// As [`MetricsServer::open`].
    pub(crate) fn open_metrics<R: Net>(
        &self,
        rt: &R,
        alloc: Global,
    ) -> Result<Option<MetricsServer>, OpenError> {
        if self.metrics == 0 {
            return Ok(None);
        }
        let server = MetricsServer::open(rt, alloc, self.address, self.metrics)?;
        Ok(Some(server))
    }
}

/// Why a port was not listened at.
pub(crate) fn fault_of(error: ListenError) -> DeviceFault
    ensures { result ≡ open_fault error }
{
    match error {
        ListenError::PortInUse => DeviceFault::PortInUse,
        ListenError::AddressElsewhere => DeviceFault::AddressElsewhere,
        ListenError::NotPermitted => DeviceFault::NotPermitted,
        ListenError::TooFewDescriptors => DeviceFault::TooFewDescriptors,
        ListenError::System => DeviceFault::Other,
    }
}

/// Why the port of the metrics was not listened at.
pub(crate) fn metrics_fault_of(error: ListenError) -> DeviceFault
    ensures { result ≡ metrics_fault error }
{
    match error {
        ListenError::PortInUse => DeviceFault::MetricsPortInUse,
        _ => fault_of(error),
    }
}

/// The listeners of a broker.
#[derive(Drop)]
pub struct Listeners {
    /// For MQTT.
    pub source: TcpSource,
    /// For metrics, where there are any.
    pub metrics: Option<MetricsServer>,
}
