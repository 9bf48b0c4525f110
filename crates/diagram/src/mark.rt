ghost use Rattle.std.specs.Prelude.{◌≡◌};

// A rule of the project: what is taken back on every way out is taken back by a guard on a plain count, a copy beside the
// table.
//
// Puts a fill count back to `start` when it is dropped, on whatever way the function is left. The count is a plain copy; the
// table follows it afterwards.
pub struct Mark<'a> {
    pub fill: &'a mut usize,
    pub start: usize,
}

impl Drop for Mark<'_> {
    fn drop(self)
        ensures { self.exit.0.now ≡ self.exit.1.0 }
    {
        *self.fill = self.start;
        let Mark { fill: _, start: _ } = self;
    }
}
