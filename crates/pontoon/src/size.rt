// How many pages a new pool has. That a pool may have so many is tested once, where the number is read, and is known
// of the value from then on.
ghost use Rattle.std.specs.Prelude.{◌≤◌};
ghost use Rattle.model.specs.Layout.{today, most_pages};

use model::MOST_PAGES;

#[derive(Clone, Copy)]
pub struct Size {
    pages: usize,
    ghost allowed: { pages ≤ most_pages today },
}

impl Size {
    // No `TryFrom`: there is one way to be none, and the caller complains of the word.
    pub fn of(pages: u64) -> Option<Size> {
        if 1 <= pages && pages <= MOST_PAGES as u64 {
            Some(Size {
                pages: pages as usize,
            })
        } else {
            None
        }
    }

    // How many words such a pool has.
    pub fn words(self) -> usize {
        model::first_word(self.pages)
    }
}
