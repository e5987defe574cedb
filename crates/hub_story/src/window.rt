//! Which steps of a journal are shown.

ghost use Rattle.std.specs.Prelude.{◌≡◌};
ghost use Rattle.hub_story.specs.Windows.{goes_on, has, has_any, touches, within};

/// Steps of a journal, counted from 0.
#[derive(Clone, Copy)]
pub struct Window {
    /// The first step.
    pub first: u32,
    /// The step behind the last one.
    pub end: u32,
}

impl Window {
    /// Whether it has the step at this place.
    pub fn has(self, place: u32) -> bool
        ensures { result ≡ has self place }
    {
        self.first <= place && place < self.end
    }

    /// Whether it has any step.
    fn has_any(self) -> bool
        ensures { result ≡ has_any self }
    {
        self.first < self.end
    }

    /// Whether it has a step of what goes on from one place until another, which is no earlier.
    pub fn touches(self, from: u32, until: u32) -> bool
        ensures { result ≡ touches self from until }
    {
        self.has_any() && from < self.end && self.first <= until
    }

    /// Whether it shows what goes on from one place until another, or still: it has a step of it, and that lasts.
    pub fn shows(self, from: u32, until: Option<u32>) -> bool
        ensures { result ≡ goes_on self from until }
    {
        match until {
            Some(until) => from < until && self.touches(from, until),
            None => self.has_any() && from < self.end,
        }
    }

    /// The part of it within so many steps.
    pub fn within(self, count: u32) -> Window
        ensures { result ≡ within self count }
    {
        Window {
            first: self.first.min(count),
            end: self.end.min(count),
        }
    }
}
