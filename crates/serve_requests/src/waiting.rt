//! What waits until the messages that came together are taken.

use crate::server::{Reach, Server};
use serve_messages::{Call, Incoming, Method, read_message};
use serve_sessions::Folder;
use std::alloc::{AllocError, Global};
use std::thread::Threads;

/// The most bytes of a message that is looked at before those in front of it are answered.
const MOST_BYTES: usize = 256;

impl Server {
    /// Takes notice of the body of a message before those in front of it are answered: if it says that a request is not wanted any
    /// more, that request is answered with an error. Longer messages than 256 bytes are passed over. The only error is want of memory.
    pub fn look_ahead(&mut self, alloc: Global, message: &[u8]) -> Result<(), AllocError> {
        if message.len() > MOST_BYTES {
            return Ok(());
        }
        match read_message(alloc, message)? {
            Incoming::Notification(call) => self.cancel(&call),
            _ => Ok(()),
        }
    }

    /// Takes notice of the request that is not wanted any more, if a notification names one.
    fn cancel(&mut self, call: &Call) -> Result<(), AllocError> {
        if call.method == Method::Cancel {
            if let Some(id) = call.params.get("id") {
                self.cancelled.push(id.clone()?)?;
            }
        }
        Ok(())
    }

    /// The bodies of messages that say what is refused, if a text changed since they were made last. It is called behind all messages
    /// that came together, so that nothing is said of a text that has changed again. The only error is want of memory.
    pub fn settle<R: AllocGlobal + Threads + Sync, F: Folder>(
        &mut self,
        rt: &R,
        folder: &F,
    ) -> Result<Vec<Vec<u8>>, AllocError> {
        self.cancelled.clear();
        if !self.is_due {
            return Ok(Vec::new(rt.alloc()));
        }
        self.is_due = false;
        self.fresh = None;
        self.diagnose(rt, folder)
    }

    /// Looks at the names of the text that changed last, or of whose names not all are known, so that the next request about it need
    /// not wait. The only error is want of memory.
    pub fn prepare<F: Folder>(&mut self, alloc: Global, folder: &F) -> Result<(), AllocError> {
        match self.latest.take() {
            Some(path) => self.hold(alloc, folder, path.as_str(), Reach::Open, None),
            None => Ok(()),
        }
    }
}
