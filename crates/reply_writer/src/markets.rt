// The text of each answer of the market.
ghost use Rattle.std.specs.Prelude.{◌≡◌, ◌<◌, ◌≤◌, ◌++◌, length, codes, decimal};
ghost use Rattle.reply_writer.specs.MarketText.{market_text};

use crate::texts::{MAX_LINE, ReplyBuf, push_number};
use arrayvec::ArrayString;
use job_language::TenantName;

/// What the market answers to a step of a script.
#[derive(Clone, Copy, Debug, PartialEq, Eq)]
pub enum MarketAnswer {
    /// The call waits in its queue.
    Queued,
    /// The worker was handed the call of this slot, numbered from 0, of this tenant.
    Held(u8, TenantName),
    /// No call was there for the worker.
    NoCall,
    /// The step is not allowed now.
    NotNow,
}

/// The line of an answer.
pub fn market_line(answer: &MarketAnswer) -> ReplyBuf
    ensures { result ≡ market_text answer.now }
{
    match *answer {
        MarketAnswer::Queued => word_line("queued"),
        MarketAnswer::Held(slot, name) => held_line(slot, name),
        MarketAnswer::NoCall => word_line("none"),
        MarketAnswer::NotNow => word_line("not_now"),
    }
}

fn held_line(slot: u8, name: TenantName) -> ReplyBuf
    ensures { result ≡ market_text (MarketAnswer.Held slot name) }
{
    let mut text = ArrayString::<MAX_LINE>::new();
    text.push_str("{\"market\":\"held\",\"slot\":");
    push_number(&mut text, u64::from(slot));
    text.push_str(",\"tenant\":\"");
    text.push_str(name.as_str());
    text.push_str("\"}");
    ReplyBuf::of(text)
}

fn word_line(word: &str) -> ReplyBuf
    requires { length word.now ≤ 7 }
    ensures { result ≡ codes "{\"market\":\"" ++ word.now ++ codes "\"}" }
{
    let mut text = ArrayString::<MAX_LINE>::new();
    text.push_str("{\"market\":\"");
    text.push_str(word);
    text.push_str("\"}");
    ReplyBuf::of(text)
}
