ghost use Rattle.std.specs.Prelude.{◌≡◌};
ghost use Rattle.ir_core.specs.Limits.{limit_name, limit_number};

/// A limit on what is read. Its number is itself allowed.
#[derive(Clone, Copy, Debug, Drop)]
pub enum Limit {
    /// The bytes of a module's text.
    Text,
    /// The bytes of a JSON file.
    Json,
    /// Types or constants one inside the other.
    Depth,
    /// The lines of a function, `ret` among them.
    Lines,
    /// The bytes of a global, of an alloca with its count, or of a type over which indices step.
    Block,
    /// The facts that are known at a place, of both sides together.
    Facts,
}

impl Limit {
    pub fn name(self) -> &'static str
        ensures { result.now ≡ limit_name self }
    {
        match self {
            Limit::Text => "text",
            Limit::Json => "json",
            Limit::Depth => "depth",
            Limit::Lines => "lines",
            Limit::Block => "block",
            Limit::Facts => "facts",
        }
    }

    pub fn number(self) -> u64
        ensures { result ≡ limit_number self }
    {
        match self {
            Limit::Text => 16_777_216,
            Limit::Json => 67_108_864,
            Limit::Depth => 64,
            Limit::Lines => 1_048_576,
            Limit::Block => 2_147_483_648,
            Limit::Facts => 65_536,
        }
    }
}
