// Showing a record of one of the two files of step records, the drafts and the history.
//
// Each function hands back a part of the file that it is named after, as it stands in that buffer:
// nothing is copied. The part's lifetime is that file's, so a caller that takes it for the other
// file's does not compile. A place that has no whole record gives an empty part.
#![tactic(auto)]

ghost use Rattle.std.specs.Prelude.{◌≡◌};
ghost use Rattle.files.specs.Showing.{record_at, stands_at};

// The record at a place of the drafts; places count from 1.
pub fn draft_at<'d, 'h>(drafts: &'d [u8], history: &'h [u8], place: usize) -> &'d [u8]
    ensures bytes { result.now ≡ record_at drafts.now place }
    ensures uncopied { result.ref_ptr ≡ stands_at drafts.entry place }
{
    shown(drafts, place)
}

// The record at a place of the history; places count from 1.
pub fn history_at<'d, 'h>(drafts: &'d [u8], history: &'h [u8], place: usize) -> &'h [u8]
    ensures bytes { result.now ≡ record_at history.now place }
    ensures uncopied { result.ref_ptr ≡ stands_at history.entry place }
{
    shown(history, place)
}

// The record at a place of one file. By ranges: `get` and `chunks` do not say where in memory what
// they lend stands, of which the clause `uncopied` speaks.
#[tactic(auto, unfolding(crate::specs::Showing::record_at, crate::specs::Showing::stands_at))]
fn shown(file: &[u8], place: usize) -> &[u8]
    ensures bytes { result.now ≡ record_at file.now place }
    ensures uncopied { result.ref_ptr ≡ stands_at file.entry place }
{
    if place == 0 || file.len() / 24 < place {
        return &file[..0];
    }
    let from = (place - 1) * 24;
    &file[from..from + 24]
}
