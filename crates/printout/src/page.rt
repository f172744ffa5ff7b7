// Lines on their way to standard output: they gather on the page, which is written when it has no
// room for another, and at the end. What stands on the page is stated; that it is written is what
// no contract can say.
ghost use Rattle.std.specs.Prelude.{◌≡◌, ◌^◌, ◌≤◌, length};
ghost use Rattle.ledger.specs.Running.{reason_in, number_in};
ghost use Rattle.text.specs.Lines.{answer_line};
ghost use Rattle.printout.specs.Page.{gathered, start_of, with_line, with_answers};

use ledger::answer_in;

// Standard output, as the system numbers it.
const STDOUT_FILENO: i32 = 1;

// The bytes that gather, how many there are, and whether every write so far was taken whole. A flag,
// and no Option of a page: lines gather on a page whose writes fail too, as the clauses below say.
#[derive(Drop)]
pub struct Page {
    pub bytes: [u8; 65536],
    pub used: usize,
    pub going: bool,
}

impl Page {
    // No line yet.
    pub fn new() -> Page
        ensures { result.used ≡ 0 }
    {
        Page {
            bytes: io::large_buffer(),
            used: 0,
            going: true,
        }
    }

    // Writes what is gathered, and starts the page anew; once a write has failed nothing is written.
    pub fn flush(&mut self)
        ensures { gathered self.new ≡ record { bytes = self.old.bytes; used = 0 } }
    {
        if self.going {
            let used = self.used.min(self.bytes.len());
            self.going = io::write_all(STDOUT_FILENO, &self.bytes[..used]);
        }
        self.used = 0;
    }

    // Room for so many bytes, by writing what is gathered where it is in the way.
    #[tactic(auto, unfolding(crate::specs::Page::start_of))]
    pub fn make_room(&mut self, room: usize)
        ensures { gathered self.new ≡ record { bytes = self.old.bytes; used = start_of room (gathered self.old) } }
    {
        if !text::has_room(self.bytes.len(), self.used, room) {
            self.flush();
        }
    }

    // The line of one record: its place from 1, and its answer in a word.
    fn answer(&mut self, place: u64, word: u64)
        ensures { gathered self.new ≡ with_line 64 (answer_line place (reason_in word) (number_in word)) (gathered self.old) }
    {
        let answer = answer_in(word);
        self.make_room(text::ANSWER_ROOM);
        self.used = text::answer_line(
            &mut self.bytes,
            self.used,
            place,
            answer.reason,
            answer.number,
        );
    }

    // The lines of the records of a piece, so many records having come before it.
    pub fn answers(&mut self, words: &[u64], before: u64)
        requires { before ≤ 2 ^ 62 }
        ensures { gathered self.new ≡ with_answers before words.now (length words.now) (gathered self.old) }
    {
        for (i, word) in words.iter().enumerate() {
            self.answer(before + i as u64 + 1, *word);
        }
    }
}
