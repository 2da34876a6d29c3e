//! What a ring asks for: that a worker is woken.
ghost use Rattle.std.specs.Prelude.{◌<◌, length};

/// What ends a worker's wait.
pub trait Wake {
    /// Ends the wait of this worker that is under way, or else makes its next one end at once. It doesn't wait itself.
    fn wake(&self);
}

/// A worker that was idle and was called. It can't be dropped: it ends in [`Call::wake`], by which the worker is woken.
pub struct Call {
    pub(crate) worker: usize,
}

impl Call {
    /// Wakes the worker, by the waker at its place.
    pub fn wake<W: Wake>(self, wakers: &[W])
        requires { self.worker < length wakers.now }
    {
        let Call { worker } = self;
        wakers[worker].wake();
    }
}
