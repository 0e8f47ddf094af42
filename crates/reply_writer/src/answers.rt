// The text of each answer to a step of a script.
ghost use Rattle.std.specs.Prelude.{◌≡◌, ◌<◌, ◌≤◌, ◌++◌, length, codes, decimal};
ghost use Rattle.arrayvec.specs.ArrayString.{array_string_len};
ghost use Rattle.reply_writer.specs.AnswerText.{answer_text, came_text, moved_text, row_text};

use crate::replies::reply_line;
use crate::texts::{MAX_LINE, ReplyBuf, push_number};
use arrayvec::ArrayString;
use job_language::{Answer, Came, Moved, Reply};

/// No word of an answer is longer, in bytes.
const MAX_WORD: usize = 8;

/// The line of an answer.
pub fn answer_line(answer: &Answer) -> ReplyBuf
    ensures { result ≡ answer_text answer.now }
{
    match *answer {
        Answer::Replied(reply) => replied_line(&reply),
        Answer::Came(came) => came_line(&came),
        Answer::Moved(moved) => moved_line(&moved),
    }
}

fn replied_line(reply: &Reply) -> ReplyBuf
    ensures { result ≡ answer_text (Answer.Replied reply.now) }
{
    match *reply {
        Reply::Pending => word_line("pending"),
        _ => reply_line(reply),
    }
}

fn came_line(came: &Came) -> ReplyBuf
    ensures { result ≡ came_text came.now }
{
    match *came {
        Came::At(row) => row_line("arrived", row),
        Came::Nothing => word_line("none"),
        Came::Full => word_line("full"),
    }
}

fn moved_line(moved: &Moved) -> ReplyBuf
    ensures { result ≡ moved_text moved.now }
{
    match *moved {
        Moved::Ran => word_line("ran"),
        Moved::Nested(row) => row_line("nested", row),
        Moved::Freed => word_line("freed"),
        Moved::Left => word_line("left"),
        Moved::Idle => word_line("idle"),
        Moved::Stale => word_line("stale"),
        Moved::Full => word_line("full"),
    }
}

/// The line that answers what is no step.
pub fn bad_step_line() -> ReplyBuf
    ensures { result ≡ codes "{\"moved\":\"bad_step\"}" }
{
    word_line("bad_step")
}

fn word_line(word: &str) -> ReplyBuf
    requires { length word.now ≤ MAX_WORD }
    ensures { result ≡ codes "{\"moved\":\"" ++ word.now ++ codes "\"}" }
{
    let mut text = ArrayString::<MAX_LINE>::new();
    text.push_str("{\"moved\":\"");
    text.push_str(word);
    text.push_str("\"}");
    ReplyBuf::of(text)
}

fn row_line(word: &str, row: u64) -> ReplyBuf
    requires { length word.now ≤ MAX_WORD }
    ensures { result ≡ row_text word.now row }
{
    let mut text = ArrayString::<MAX_LINE>::new();
    text.push_str("{\"moved\":\"");
    text.push_str(word);
    text.push_str("\",\"row\":");
    push_number(&mut text, row);
    text.push_str("}");
    ReplyBuf::of(text)
}
