//! How large the two systems of `demo` are.
ghost use Rattle.cmd_demo.specs.Size.{IsSize};

/// How large the two systems are: how often their pattern of moves stands in them.
#[derive(Clone, Copy, Debug)]
pub struct Size {
    /// The number.
    pub number: u32,
    ghost within: { IsSize number },
}
