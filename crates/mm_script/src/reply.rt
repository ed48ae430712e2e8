//! Replies, and how they are printed.
ghost use Rattle.std.specs.Prelude.{◌≤◌, ◌+◌, ◌++◌, codes};
ghost use Rattle.arrayvec.specs.ArrayVec.{array_vec_len};
ghost use Rattle.mm_script.specs.Reply.{reply_line, reply_text, settled_text, state_text, totals_text, refusal_text};
ghost use Rattle.mm_lines.specs.Output.{Prints};
ghost use Rattle.mm_label.specs.Label.{label_text};

use mm_lines::{OUTPUT_LEN, Output, print_key, print_number, print_text};
use mm_table::{
    Acquired, Detected, Key, Label, Mode, Refusal, Released, Settled, State, Totals, Transmitted,
};

/// The reply to a line.
#[derive(Clone, Copy)]
pub enum Reply {
    Malformed,
    NoTable,
    TableStands,
    Opened,
    Begun(Key),
    Acquired(Acquired),
    Released(Released),
    Finished,
    Transmitted(Transmitted),
    Detected(Detected),
    Aborted,
    Withdrawn,
    Settled(Settled),
    Read(State),
    Owned(Option<Key>),
    Counted(Totals),
    Refused(Refusal),
}

/// A reply has at most this many bytes, with its newline.
pub const MAX_REPLY: usize = 128;

/// Adds a reply and a newline.
pub fn print_reply(replies: &mut Output, reply: &Reply)
    requires { array_vec_len replies.old + MAX_REPLY ≤ OUTPUT_LEN }
    ensures { Prints replies.old.items (reply_line reply.now) MAX_REPLY replies.new.items }
{
    print_without_newline(replies, reply);
    replies.push(b'\n');
}

fn print_without_newline(replies: &mut Output, reply: &Reply)
    requires { array_vec_len replies.old + 127 ≤ OUTPUT_LEN }
    ensures { Prints replies.old.items (reply_text reply.now) 127 replies.new.items }
{
    match reply {
        Reply::Malformed => print_text(replies, b"malformed"),
        Reply::NoTable => print_text(replies, b"no table"),
        Reply::TableStands => print_text(replies, b"table stands"),
        Reply::Opened => print_text(replies, b"ok"),
        Reply::Begun(key) => print_key(replies, b"key ", *key),
        Reply::Acquired(Acquired::Granted) => print_text(replies, b"granted"),
        Reply::Acquired(Acquired::Waits { holder, label }) => {
            print_key(replies, b"waits ", *holder);
            print_label(replies, *label);
        }
        Reply::Released(Released::Free) => print_text(replies, b"free"),
        Reply::Released(Released::To(owner)) => print_key(replies, b"to ", *owner),
        Reply::Finished => print_text(replies, b"finished"),
        Reply::Transmitted(Transmitted::Raised(label)) => {
            print_text(replies, b"raised");
            print_label(replies, *label);
        }
        Reply::Transmitted(Transmitted::Still) => print_text(replies, b"still"),
        Reply::Detected(Detected::Deadlock(label)) => {
            print_text(replies, b"deadlock");
            print_label(replies, *label);
        }
        Reply::Detected(Detected::Standing) => print_text(replies, b"standing"),
        Reply::Detected(Detected::Clear) => print_text(replies, b"clear"),
        Reply::Aborted => print_text(replies, b"aborted"),
        Reply::Withdrawn => print_text(replies, b"withdrawn"),
        Reply::Settled(settled) => print_settled(replies, settled),
        Reply::Read(state) => print_state(replies, state),
        Reply::Owned(None) => print_text(replies, b"free"),
        Reply::Owned(Some(owner)) => print_key(replies, b"owner ", *owner),
        Reply::Counted(totals) => print_totals(replies, totals),
        Reply::Refused(refusal) => print_refusal(replies, *refusal),
    }
}

fn print_label(replies: &mut Output, label: Label)
    requires { array_vec_len replies.old + 42 ≤ OUTPUT_LEN }
    ensures { Prints replies.old.items (codes " " ++ label_text label) 42 replies.new.items }
{
    print_number(replies, b" ", label.counter());
    print_number(replies, b".", u64::from(label.process()));
}

fn print_totals(replies: &mut Output, totals: &Totals)
    requires { array_vec_len replies.old + 69 ≤ OUTPUT_LEN }
    ensures { Prints replies.old.items (totals_text totals.now) 69 replies.new.items }
{
    print_number(replies, b"totals ", totals.accepted);
    print_number(replies, b" ", totals.verdicts);
    print_number(replies, b" ", totals.aborts);
}

fn print_settled(replies: &mut Output, settled: &Settled)
    requires { array_vec_len replies.old + 49 ≤ OUTPUT_LEN }
    ensures { Prints replies.old.items (settled_text settled.now) 49 replies.new.items }
{
    print_number(replies, b"settled ", settled.raises);
    print_number(replies, b" ", settled.verdicts);
}

fn print_state(replies: &mut Output, state: &State)
    requires { array_vec_len replies.old + 114 ≤ OUTPUT_LEN }
    ensures { Prints replies.old.items (state_text state.now) 114 replies.new.items }
{
    match state.mode {
        Mode::Active => print_text(replies, b"active"),
        Mode::Waiting(resource) => print_number(replies, b"waiting ", u64::from(resource)),
        Mode::Convicted(resource) => print_number(replies, b"convicted ", u64::from(resource)),
    }
    print_label(replies, state.private);
    print_label(replies, state.public);
}

fn print_refusal(replies: &mut Output, refusal: Refusal)
    requires { array_vec_len replies.old + 44 ≤ OUTPUT_LEN }
    ensures { Prints replies.old.items (refusal_text refusal) 44 replies.new.items }
{
    print_number(replies, b"refused ", u64::from(refusal.number()));
    print_text(replies, b" ");
    print_text(replies, refusal.name().as_bytes());
}
