//! Answers as a server sends them.

ghost use Rattle.sporc_order.specs.Replies.{Says};

use crate::session::Answer;
use sporc_base::Bytes;
use sporc_wire::ToClient;

/// What a session answers to a message, where entries stand in the frame that carries them.
#[derive(Drop)]
pub enum Reply {
    /// This message is sent.
    Message(ToClient),
    /// This frame is sent.
    Frame(Bytes),
    /// Nothing is sent.
    Silent,
    /// The session ends.
    Close,
}

// The reply that says an answer.
pub(crate) fn reply_of(answer: Answer) -> Reply
    ensures { Says answer result }
{
    match answer {
        Answer::Send(message) => Reply::Message(message),
        Answer::Silent => Reply::Silent,
        Answer::Close => Reply::Close,
    }
}
