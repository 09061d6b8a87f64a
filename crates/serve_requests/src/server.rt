//! The server, and how it takes messages.

use crate::starting::{encoding_of, put_capabilities};
use serde_json::Value;
use serve_messages::{
    Call, ErrorCode, FrameFault, Incoming, Invalid, Method, error_body, read_message, result_body,
};
use serve_offers::{has_snippets, makes_files};
use serve_sessions::{
    Explanations, Folder, Fresh, Program, Setting, View, change_text, close_text, explanations_for,
    open_text, path_in,
};
use serve_texts::{Encoding, Position, Texts};
use std::alloc::{AllocError, Global};
use std::thread::Threads;
use write_json::Json;

/// How far a session is.
#[derive(Clone, Copy, Debug, PartialEq, Eq)]
enum Stage {
    /// It waits for `initialize`.
    Fresh,
    /// It answers.
    Running,
    /// It waits for `exit`.
    Stopped,
}

/// The status of a server that was shut down before it ended, and of one that was not.
const WAS_SHUT_DOWN: u8 = 0;

const WAS_CUT_OFF: u8 = 1;

/// The programs of a file, and what their names stand for.
pub(crate) struct Held {
    /// The path of the file.
    pub(crate) path: String,
    pub(crate) reach: Reach,
    /// The place that was asked about, if the names inside of other procedures are not known.
    pub(crate) focus: Option<Position>,
    pub(crate) programs: Vec<Program>,
    pub(crate) view: View,
}

// Written by hand, so that proofs above take a drop as one call.
impl Drop for Held {
    fn drop(self) {
        let Held {
            path,
            reach: _reach,
            focus: _focus,
            programs,
            view,
        } = self;
        drop(path);
        drop(programs);
        drop(view);
    }
}

/// Which programs of a file are looked at.
#[derive(Clone, Copy, Debug, PartialEq, Eq, PartialOrd, Ord)]
pub(crate) enum Reach {
    /// Those of open texts, with the files that they have.
    Program,
    /// Also with the files that they may import besides.
    Open,
    /// Also those of the files in the same folder.
    Folder,
}

/// A language server.
#[derive(Drop)]
pub struct Server {
    pub(crate) setting: Setting,
    pub(crate) encoding: Encoding,
    pub(crate) texts: Texts,
    /// The files of which something is shown as refused.
    pub(crate) shown: Vec<String>,
    /// The programs that were asked about last, until a text changes.
    pub(crate) held: Option<Held>,
    /// The tree of the text that changed last, until it is asked for or said what is refused.
    pub(crate) fresh: Option<Fresh>,
    /// Whether a text changed since it was last said what is refused.
    pub(crate) is_due: bool,
    /// The text whose names are looked at when nothing is asked: that which changed last, or that of whose names not all are known.
    pub(crate) latest: Option<String>,
    /// The requests that are not wanted any more.
    pub(crate) cancelled: Vec<Value>,
    /// Whether the editor takes texts with places to fill.
    pub(crate) has_snippets: bool,
    /// Whether the editor makes files that an edit asks for.
    pub(crate) makes_files: bool,
    /// The explanations to which links lead, if the editor shows links.
    pub(crate) explanations: Option<Explanations>,
    stage: Stage,
}

/// What goes back to the editor.
#[derive(Drop)]
pub struct Answer {
    /// The bodies of messages, in order, each without a header.
    pub bodies: Vec<Vec<u8>>,
    /// The status with which the server ends now, if it does.
    pub end: Option<u8>,
}

/// What becomes of a request.
#[derive(Clone, Copy)]
pub(crate) enum Reply {
    /// Its result is written.
    Written,
    /// It is not met. A sentence says why.
    Failed(ErrorCode, &'static str),
}

impl Reply {
    /// A request lacks what it is asked of.
    pub(crate) fn no_params() -> Reply {
        Reply::Failed(
            ErrorCode::InvalidParams,
            "the params of this request lack what it is asked of",
        )
    }

    /// There is nothing to tell.
    pub(crate) fn null(json: &mut Json) -> Reply {
        json.null();
        Reply::Written
    }
}

impl Answer {
    /// These bodies go back.
    fn of(bodies: Vec<Vec<u8>>) -> Answer {
        Answer { bodies, end: None }
    }

    /// Nothing goes back.
    fn nothing(alloc: Global) -> Answer {
        Answer::of(Vec::new(alloc))
    }

    /// A message is refused, with a sentence.
    fn refusal(
        alloc: Global,
        id: &Value,
        code: ErrorCode,
        words: &str,
    ) -> Result<Answer, AllocError> {
        let mut bodies = Vec::new(alloc);
        bodies.push(error_body(alloc, id, code, words)?)?;
        Ok(Answer::of(bodies))
    }
}

impl Server {
    /// A server that waits for `initialize`.
    pub fn new(alloc: Global, setting: Setting) -> Server {
        Server {
            setting,
            encoding: Encoding::Utf16,
            texts: Texts::new(alloc),
            shown: Vec::new(alloc),
            held: None,
            fresh: None,
            is_due: false,
            latest: None,
            cancelled: Vec::new(alloc),
            has_snippets: false,
            makes_files: false,
            explanations: None,
            stage: Stage::Fresh,
        }
    }

    /// What is answered to bytes of a stream that are no message.
    pub fn answer_broken(&self, alloc: Global, fault: FrameFault) -> Result<Answer, AllocError> {
        Answer::refusal(alloc, &Value::Null, ErrorCode::ParseError, fault.words())
    }

    /// The status with which a server ends if no more messages come.
    pub fn status_at_end(&self) -> u8 {
        if self.stage == Stage::Stopped {
            WAS_SHUT_DOWN
        } else {
            WAS_CUT_OFF
        }
    }

    /// What goes back for the body of a message. What is refused then is said by `settle`, or before the session is shut down. The
    /// only error is want of memory.
    pub fn answer<R: AllocGlobal + Threads + Sync, F: Folder>(
        &mut self,
        rt: &R,
        folder: &F,
        message: &[u8],
    ) -> Result<Answer, AllocError> {
        let alloc = rt.alloc();
        match read_message(alloc, message)? {
            Incoming::Request(call) => self.answer_request(rt, folder, &call),
            Incoming::Notification(call) => self.note(rt, folder, &call),
            Incoming::Response => Ok(Answer::nothing(alloc)),
            Incoming::Invalid(Invalid { id, code, words }) => {
                Answer::refusal(alloc, &id, code, words)
            }
        }
    }

    /// What goes back for a request.
    fn answer_request<R: AllocGlobal + Threads + Sync, F: Folder>(
        &mut self,
        rt: &R,
        folder: &F,
        call: &Call,
    ) -> Result<Answer, AllocError> {
        let mut bodies = match call.method {
            Method::Shutdown => self.settle(rt, folder)?,
            _ => Vec::new(rt.alloc()),
        };
        bodies.push(self.body_for(rt, folder, call)?)?;
        Ok(Answer::of(bodies))
    }

    /// The body that answers a request.
    fn body_for<R: AllocGlobal + Threads + Sync, F: Folder>(
        &mut self,
        rt: &R,
        folder: &F,
        call: &Call,
    ) -> Result<Vec<u8>, AllocError> {
        let mut json = Json::new(rt.alloc());
        match self.reply(rt, folder, call, &mut json)? {
            Reply::Written => result_body(rt.alloc(), &call.id, &json.finish()?),
            Reply::Failed(code, words) => error_body(rt.alloc(), &call.id, code, words),
        }
    }

    /// Writes what is answered to a request, as far as the session is.
    fn reply<R: AllocGlobal + Threads + Sync, F: Folder>(
        &mut self,
        rt: &R,
        folder: &F,
        call: &Call,
        json: &mut Json,
    ) -> Result<Reply, AllocError> {
        match self.stage {
            Stage::Fresh if call.method == Method::Initialize => {
                self.begin(rt.alloc(), folder, &call.params, json)
            }
            Stage::Fresh => Ok(Reply::Failed(
                ErrorCode::ServerNotInitialized,
                "the server waits for initialize",
            )),
            Stage::Running => self.running_reply(rt, folder, call, json),
            Stage::Stopped => Ok(Reply::Failed(
                ErrorCode::InvalidRequest,
                "the server is shut down",
            )),
        }
    }

    /// Writes what is answered to a request while the session runs.
    fn running_reply<R: AllocGlobal + Threads + Sync, F: Folder>(
        &mut self,
        rt: &R,
        folder: &F,
        call: &Call,
        json: &mut Json,
    ) -> Result<Reply, AllocError> {
        match call.method {
            Method::Initialize => Ok(Reply::Failed(
                ErrorCode::InvalidRequest,
                "the server is initialized already",
            )),
            Method::Shutdown => {
                self.stage = Stage::Stopped;
                Ok(Reply::null(json))
            }
            _ if self.cancelled.contains(&call.id) => Ok(Reply::Failed(
                ErrorCode::RequestCancelled,
                "the request was cancelled",
            )),
            _ => self.request(rt, folder, call, json),
        }
    }

    /// Begins the session with an editor that says this of itself.
    fn begin<F: Folder>(
        &mut self,
        alloc: Global,
        folder: &F,
        params: &Value,
        json: &mut Json,
    ) -> Result<Reply, AllocError> {
        self.stage = Stage::Running;
        self.encoding = encoding_of(params);
        self.has_snippets = has_snippets(params);
        self.makes_files = makes_files(params);
        self.explanations = explanations_for(alloc, folder, &self.setting.libraries, params)?;
        put_capabilities(self.encoding, json);
        Ok(Reply::Written)
    }

    /// Takes a notification.
    fn note<R: AllocGlobal + Threads + Sync, F: Folder>(
        &mut self,
        rt: &R,
        folder: &F,
        call: &Call,
    ) -> Result<Answer, AllocError> {
        if call.method == Method::Exit {
            return Ok(Answer {
                bodies: self.settle(rt, folder)?,
                end: Some(self.status_at_end()),
            });
        }
        if self.stage == Stage::Running && self.take_change(rt.alloc(), call)? {
            self.held = None;
            self.is_due = true;
            self.latest = path_in(rt.alloc(), &call.params)?;
        }
        Ok(Answer::nothing(rt.alloc()))
    }

    /// Takes what a notification says of texts. Whether what is refused may be other then.
    fn take_change(&mut self, alloc: Global, call: &Call) -> Result<bool, AllocError> {
        self.fresh = None;
        match call.method {
            Method::DidOpen => open_text(alloc, &mut self.texts, &call.params),
            Method::DidChange => change_text(
                alloc,
                &mut self.texts,
                &call.params,
                self.encoding,
                &mut self.fresh,
            ),
            Method::DidClose => close_text(alloc, &mut self.texts, &call.params),
            Method::DidSave | Method::DidChangeWatchedFiles => Ok(true),
            _ => Ok(false),
        }
    }
}
