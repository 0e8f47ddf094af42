// Laws of the lines of dumps.
ghost use Rattle.std.specs.Prelude.{◌≡◌, true, List, All};
ghost use Rattle.serde_json.specs.Written.{compact_text};
ghost use Rattle.job_language.specs.Recorded.{is_recorded_reply};
ghost use Rattle.job_language.specs.declared.answers.Reply.{Reply};
ghost use Rattle.job_language.specs.declared.steps.Entry.{Entry};
ghost use Rattle.job_language.specs.declared.tenants.Tenant.{Tenant};
ghost use Rattle.reply_writer.specs.ReplyText.{reply_text};
ghost use Rattle.request_reader.specs.Lines.{split_lines};
ghost use Rattle.dump_lines.specs.Dumps.{HasLine, dump_text, line_texts};
ghost use Rattle.dump_lines.specs.Written.{reply_data};

/// A reply that a history records has one text: what a connection is sent is the compact text of the
/// JSON that a dump has for it. It does nothing: its contract is the law.
pub fn replies_have_one_text()
    ensures { (r : Reply) → is_recorded_reply r ≡ true
        → reply_text r ≡ compact_text (reply_data r) }
{}

/// The lines of a dump's text are one for the tenant, and then one for each entry, in order: none of them
/// has a newline within. It does nothing: its contract is the law.
pub fn dumps_have_these_lines()
    ensures { (c : Tenant) (es : List Entry) → All HasLine es
        → split_lines (dump_text c es) ≡ line_texts c es }
{}
