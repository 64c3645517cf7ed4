// The largest of values that come one after another, and which it was.
ghost use Rattle.std.specs.Prelude.{◌≡◌};
ghost use Rattle.analyser_parts.specs.Peaks.{or_later};

#[derive(Clone, Copy)]
pub struct Largest {
    pub at: usize,
    pub value: i64,
}

impl Largest {
    // A later value takes the place only where it is larger.
    pub fn or_later(self, later: Largest) -> Largest
        ensures { result ≡ or_later self later }
    {
        if self.value < later.value {
            later
        } else {
            self
        }
    }
}
