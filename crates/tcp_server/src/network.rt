//! What the connections of a broker on TCP come over.

use crate::beside::BesideMetrics;
use crate::client_stream::ClientStream;
use crate::socket_poller::SocketPoller;
use std::marker::PhantomData;
use std::net::Net;
use std::rt::Clock as SystemClock;
use std::sync::Wait;
use tcp_edge::{Alarm, Socket, Until};
use worker_pool::Network;

/// Sockets of a listener, with its lobby and whom it tells its metrics; each worker waits at a reactor.
pub(crate) struct TcpNetwork<'a, R> {
    runtime: PhantomData<&'a R>,
}

impl<'a, R: Wait + Net + SystemClock + Sync> Network for TcpNetwork<'a, R> {
    type Transport = Socket<ClientStream>;

    type Source = Until<'a, BesideMetrics<'a, R>>;

    type Alarm = Alarm;

    type Poller = SocketPoller<'a, R>;
}
