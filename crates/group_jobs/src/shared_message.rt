//! Messages with several owners.
ghost use Rattle.std.specs.Prelude.{◌≡◌, IfOk};

use crate::error::JobError;
use crate::message::Message;
use std::alloc::Global;
use std::marker::Model;
use std::ops::Deref;
use std::sync::Arc;

/// A message with several owners, in whatever threads: the groups that it was offered to, and at last the members that hold it. It
/// is let go with the last of them.
///
/// Contracts see it as the message.
#[derive(Debug, Drop)]
pub struct SharedMessage {
    message: Arc<Message>,
}

impl Model for SharedMessage {
    ghost use Rattle.group_jobs.specs.declared.message.Message.{Message};

    ghost Value = { Message };

    ghost view = { λ s. s.message.value };
}

impl SharedMessage {
    /// A message with one owner so far.
    ///
    /// # Errors
    ///
    /// 503 [`JobError::Memory`]; the message is let go.
    pub fn new(alloc: Global, message: Message) -> Result<SharedMessage, JobError>
        ensures { IfOk result (λ shared. shared ≡ message) }
    {
        Ok(SharedMessage {
            message: Arc::new(alloc, message)?,
        })
    }

    /// The same message, for one owner more. It takes no memory.
    ///
    /// # Errors
    ///
    /// 503 [`JobError::Memory`]: it has as many owners as can be counted, 2^63.
    pub fn share(&self) -> Result<SharedMessage, JobError>
        ensures { IfOk result (λ shared. shared ≡ self.now) }
    {
        Ok(SharedMessage {
            message: Arc::try_clone(&self.message)?,
        })
    }
}

impl Deref for SharedMessage {
    type Target = Message;

    ghost deref_gives = { λ shared message. message ≡ shared };

    fn deref(&self) -> &Message
        ensures { result.now ≡ self.now }
    {
        &self.message
    }
}
