//! Where the words and the structured data of a record lie.

ghost use Rattle.std.specs.Prelude.{◌≡◌, ◌+◌, ◌^◌, ◌<◌, length, option_map};
ghost use Rattle.syslog_fields.specs.Canonical.{word_form};
ghost use Rattle.syslog_reading.specs.ViewParts.{IsViewOf, view_parts};
ghost use Rattle.c_library.specs.Parts.{IsLayout};

use syslog_grammar::RecordView;

/// The offsets of the words and of the structured data in a record, in octets.
#[derive(Clone, Copy)]
pub struct Layout {
    /// The offset of HOSTNAME.
    pub hostname: usize,
    /// The offset of APP-NAME.
    pub app_name: usize,
    /// The offset of PROCID.
    pub proc_id: usize,
    /// The offset of MSGID.
    pub msg_id: usize,
    /// The offset of STRUCTURED-DATA.
    pub structured_data: usize,
}

/// The offset behind a word, or NILVALUE, and the space that follows it.
fn behind_word(at: usize, word: Option<&[u8]>) -> usize
    requires { at + length (word_form (option_map (λ s. s.now) word)) + 1 < 2 ^ 64 }
    ensures { result ≡ at + length (word_form (option_map (λ s. s.now) word.entry)) + 1 }
{
    match word {
        None => at + 2,
        Some(word) => at + word.len() + 1,
    }
}

/// Where the words and the structured data lie in the record that the octets are.
pub fn layout_of(octets: &[u8], view: &RecordView<'_>) -> Layout
    requires { IsViewOf octets.now (view_parts view.now) }
    ensures { IsLayout octets.now (view_parts view.now) result }
{
    let hostname = octets.len() - view.behind_time.len();
    let app_name = behind_word(hostname, view.hostname());
    let proc_id = behind_word(app_name, view.app_name());
    let msg_id = behind_word(proc_id, view.proc_id());
    let structured_data = behind_word(msg_id, view.msg_id());
    Layout {
        hostname,
        app_name,
        proc_id,
        msg_id,
        structured_data,
    }
}
