ghost use Rattle.std.specs.Prelude.{◌≡◌, ◌<◌, ◌≤◌, replicate, slice_index_or, slice_set};
ghost use Rattle.fiber_stack.specs.Chunks.{two, four, eight};

/// Room for two values.
#[derive(Clone, Copy)]
struct Two<F: Copy> {
    a: F,
    b: F,
}

impl<F: Copy> Two<F> {
    #[inline(always)]
    fn at(&self, index: u32) -> &F
        requires { index < 2 }
        ensures { result.now ≡ slice_index_or (two self.now) index result.now }
    {
        if index < 1 { &self.a } else { &self.b }
    }

    #[inline(always)]
    fn set(&mut self, index: u32, value: F)
        requires { index < 2 }
        ensures { two self.new ≡ slice_set (two self.old) index value }
    {
        if index < 1 {
            self.a = value;
        } else {
            self.b = value;
        }
    }
}

/// Room for four values.
#[derive(Clone, Copy)]
struct Four<F: Copy> {
    low: Two<F>,
    high: Two<F>,
}

impl<F: Copy> Four<F> {
    #[inline(always)]
    fn half(&self, index: u32) -> &Two<F>
        ensures low { index < 2 → result.now ≡ self.now.low }
        ensures high { 2 ≤ index → result.now ≡ self.now.high }
    {
        if index < 2 { &self.low } else { &self.high }
    }

    #[inline(always)]
    fn at(&self, index: u32) -> &F
        requires { index < 4 }
        ensures { result.now ≡ slice_index_or (four self.now) index result.now }
    {
        self.half(index).at(index % 2)
    }

    #[inline(always)]
    fn set(&mut self, index: u32, value: F)
        requires { index < 4 }
        ensures { four self.new ≡ slice_set (four self.old) index value }
    {
        if index < 2 {
            self.low.set(index, value);
        } else {
            self.high.set(index - 2, value);
        }
    }
}

/// Room for eight values. It is cut into halves, so that a value's address comes of three choices with no branch: an array of
/// a type parameter would owe that its size is small.
#[derive(Clone, Copy)]
pub(crate) struct Eight<F: Copy> {
    low: Four<F>,
    high: Four<F>,
}

impl<F: Copy> Eight<F> {
    /// The same value eight times.
    pub(crate) fn of(value: F) -> Eight<F>
        ensures { eight result ≡ replicate 8 value }
    {
        let pair = Two { a: value, b: value };
        let half = Four {
            low: pair,
            high: pair,
        };
        Eight {
            low: half,
            high: half,
        }
    }

    #[inline(always)]
    fn half(&self, index: u32) -> &Four<F>
        ensures low { index < 4 → result.now ≡ self.now.low }
        ensures high { 4 ≤ index → result.now ≡ self.now.high }
    {
        if index < 4 { &self.low } else { &self.high }
    }

    #[inline(always)]
    pub(crate) fn at(&self, index: u32) -> &F
        requires { index < 8 }
        ensures { result.now ≡ slice_index_or (eight self.now) index result.now }
    {
        self.half(index).at(index % 4)
    }

    #[inline(always)]
    pub(crate) fn set(&mut self, index: u32, value: F)
        requires { index < 8 }
        ensures { eight self.new ≡ slice_set (eight self.old) index value }
    {
        if index < 4 {
            self.low.set(index, value);
        } else {
            self.high.set(index - 4, value);
        }
    }
}
