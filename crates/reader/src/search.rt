// The search for one page box of a file, by its number among them.
ghost use Rattle.std.specs.Prelude.{◌≡◌};
ghost use Rattle.reader.specs.Searches.{due, one_less};

// How many page boxes are to come before the one that is wanted, or `None` where it has come; and what was kept of it.
#[derive(Drop)]
pub(crate) struct Search<T> {
    pub(crate) left: Option<u64>,
    pub(crate) found: Option<T>,
}

impl<T> Search<T> {
    // Passes a page box: whether it is the one that is wanted.
    pub(crate) fn pass(&mut self) -> bool
        ensures wanted { result ≡ due self.old.left }
        ensures left { self.new.left ≡ one_less self.old.left }
        ensures found { self.new.found ≡ self.old.found }
    {
        let wanted = self.left == Some(0);
        self.left = self.left.and_then(|more| more.checked_sub(1));
        wanted
    }
}
