// What ends a replay before play: 19, each file as it is opened and cut up, 24.
ghost use Rattle.std.specs.Prelude.{◌≡◌, ◌&&◌, ◌/◌, length, IfOk, option_copied};
ghost use Rattle.refusal.specs.Refusals.{number_of};
ghost use Rattle.schemes.specs.Lists.{list_ok};
ghost use Rattle.schemes.specs.Sets.{below};
ghost use Rattle.sides.specs.Merging.{messages_of};
ghost use Rattle.sides.specs.Replay.{neither, refused, file_ending, before};
ghost use Rattle.replaying.specs.Playing.{file_if, octets_of, case_with, whose_as, fault_as, ending_by, files_ending};

use super::{Fault, Marks, Whose};
use merging::{cut_file, in_row};
use message::field;
use refusal::Refusal;
use schemes::list::list_ok;
use schemes::set::within;
use vector::TokenPlace;

// The octets of a file, none where it could not be opened.
pub fn octets_of(file: Option<&[u8]>) -> &[u8]
    ensures { result.now ≡ octets_of (option_copied file.entry) }
{
    match file {
        Some(octets) => octets,
        None => b"",
    }
}

// 19, of a list and its marks.
fn given_ok(list: &[u8], marks: u16) -> bool
    ensures { result ≡ (list_ok list.now && below (length list.now / 16) marks) }
{
    list_ok(list) && within(marks, (list.len() / field::ID) as u32)
}

// A refusal of what is given as a whole.
fn refuse(refusal: Refusal) -> Fault
    ensures { fault_as result ≡ refused (number_of refusal) 0 neither }
{
    Fault::Refused {
        number: refusal.number(),
        place: TokenPlace(0),
        whose: Whose::Neither,
    }
}

// A file, opened and cut up to its end: how many messages it has.
fn count_messages(file: Option<&[u8]>, whose: Whose) -> Result<u32, Fault>
    ensures ending { ending_by result ≡ file_ending (whose_as whose) (file_if (option_copied file.entry)) }
    ensures messages { IfOk result (λ n. n ≡ length (messages_of (octets_of (option_copied file.entry)))) }
{
    let Some(octets) = file else {
        return Err(Fault::Unopened);
    };
    let cut = cut_file(octets);
    match cut.refused {
        None => Ok(cut.messages),
        Some(refused) => Err(Fault::Refused {
            number: refused.refusal.number(),
            place: refused.place,
            whose,
        }),
    }
}

// The two files, and 24.
fn check_files(ifile: Option<&[u8]>, afile: Option<&[u8]>) -> Result<(), Fault>
    ensures { ending_by result ≡ files_ending (option_copied ifile.entry) (option_copied afile.entry) }
{
    let imessages = count_messages(ifile, Whose::Initiator)?;
    let amessages = count_messages(afile, Whose::Acceptor)?;
    if !in_row(octets_of(ifile), octets_of(afile), imessages + amessages) {
        return Err(refuse(Refusal::Numbering));
    }
    Ok(())
}

// All that ends a replay before play, the first of it.
pub fn check_before(
    ilist: &[u8],
    alist: &[u8],
    marks: Marks,
    ifile: Option<&[u8]>,
    afile: Option<&[u8]>,
) -> Result<(), Fault>
    ensures { ending_by result ≡ before
        (case_with ilist.now alist.now marks (option_copied ifile.entry) (option_copied afile.entry)) }
{
    if !given_ok(ilist, marks.initiator) || !given_ok(alist, marks.acceptor) {
        return Err(refuse(Refusal::Argument));
    }
    check_files(ifile, afile)
}
