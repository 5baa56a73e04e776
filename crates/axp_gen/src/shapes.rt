ghost use Rattle.std.specs.Prelude.{◌≡◌};
ghost use Rattle.axp_gen.specs.Shapes.{name_of, shape_of};

/// What a litmus test asks of two processors.
#[derive(Clone, Copy, Debug, PartialEq, Eq)]
pub enum Shape {
    /// Store buffering: each processor stores to a place of its own and loads the other's.
    Sb,
    /// A dependent load: one processor publishes a pointer behind a barrier, the other loads the
    /// pointer and then what it points to.
    Dl,
    /// The dependent load with a barrier between its two loads.
    Dm,
    /// A spin lock: each processor adds to a counter under it, and at the end one signals the other.
    Lock,
}

impl Shape {
    /// The word by which the shape is printed.
    pub fn name(&self) -> &'static str
        ensures { result.now ≡ name_of self.now }
    {
        match self {
            Shape::Sb => "sb",
            Shape::Dl => "dl",
            Shape::Dm => "dm",
            Shape::Lock => "lock",
        }
    }
}

/// The shape of a number, any of 64 bits: its remainder by 4 counts the shapes in their order.
pub fn shape_of(number: u64) -> Shape
    ensures { result ≡ shape_of number }
{
    match number % 4 {
        0 => Shape::Sb,
        1 => Shape::Dl,
        2 => Shape::Dm,
        _ => Shape::Lock,
    }
}
