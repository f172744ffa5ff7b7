// The lines of settlement.
ghost use Rattle.std.specs.Prelude.{◌≡◌, length};
ghost use Rattle.text.specs.Lines.{figures_line, refusal_line};
ghost use Rattle.printout.specs.Page.{gathered, with_line, numbers_of, with_figures, with_settlement};

use crate::page::Page;
use book::Whole;
use reasons::Reason;
use settlement::{Figures, Listing};

// The figures of a participant, in the order of its line.
pub fn figures_of(f: Figures) -> [u64; 8]
    ensures { result ≡ numbers_of f }
{
    [
        u64::from(f.tradeable.0),
        u64::from(f.made.0),
        u64::from(f.received.0),
        u64::from(f.left.0),
        u64::from(f.over.0),
        u64::from(f.short.0),
        u64::from(f.dsm.0),
        f.pay.0,
    ]
}

impl Page {
    // The line of one participant.
    fn participant(&mut self, f: Figures)
        ensures { gathered self.new ≡ with_line 256 (figures_line f.participant (numbers_of f)) (gathered self.old) }
    {
        self.make_room(text::FIGURES_ROOM);
        self.used = text::figures_line(&mut self.bytes, self.used, f.participant, figures_of(f));
    }

    // The line of each registered participant.
    fn participants(&mut self, figures: &[Figures])
        ensures { gathered self.new ≡ with_figures figures.now (length figures.now) (gathered self.old) }
    {
        for f in figures {
            self.participant(*f);
        }
    }

    // The line of a refusal.
    fn refusal(&mut self, reason: u8)
        ensures { gathered self.new ≡ with_line 32 (refusal_line reason) (gathered self.old) }
    {
        self.make_room(text::REFUSAL_ROOM);
        self.used = text::refusal_line(&mut self.bytes, self.used, reason);
    }

    // A line for each registered participant, or that of the refusal.
    #[tactic(auto, unfolding(crate::specs::Page::with_settlement))]
    fn settled(&mut self, s: Result<Listing, Reason>)
        ensures { gathered self.new ≡ with_settlement s (gathered self.old) }
    {
        match s {
            Ok(listing) => self.participants(listing.figures()),
            Err(reason) => self.refusal(u8::from(reason)),
        }
    }

    // The settlement of a book, after what is gathered already; and all of it is written.
    pub fn settlement(&mut self, book: &Whole, levels: &[u32]) {
        self.settled(settlement::settle_whole(book, levels));
        self.flush();
    }
}
