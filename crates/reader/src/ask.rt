// What is asked of what is read: the level of an expression that begins here, the queries open, the strength. One number:
// each more that a call of the cycle takes would lie on the stack at every level.
ghost use Rattle.std.specs.Prelude.{◌≡◌, ◌+◌, ◌*◌, ◌/◌, ◌<◌, ◌≤◌};
ghost use Rattle.reader.specs.Asked.{queries_in, strength_in};

const LEVEL: u32 = 512;

const QUERY: u32 = 16;

#[derive(Clone, Copy)]
pub struct Ask {
    code: u32,
    ghost shallow: { code < 66 * 512 },
    ghost few: { queries_in code ≤ 16 },
}

impl Ask {
    ghost use Rattle.grammar.specs.Limits.{outer};
    ghost use Rattle.descent.proofs.Walk.{deeper};
    ghost use Rattle.reader.specs.Bounds.{queries_of, strength_asked, Shallow};
    ghost use Rattle.reader.specs.Laying.{Packed, Passes, OpensOne};

    // Of the outermost query.
    pub fn outermost() -> Ask
        ensures { Packed outer 0 result × (strength_asked result ≡ 0) }
    {
        Ask { code: LEVEL }
    }

    pub fn level(self) -> u32
        ensures { result ≡ self.code / 512 }
    {
        self.code / LEVEL
    }

    pub fn queries(self) -> u32
        ensures { result ≡ queries_of self }
    {
        self.code % LEVEL / QUERY
    }

    pub fn strength(self) -> u32
        ensures { result ≡ strength_asked self }
    {
        self.code % QUERY
    }

    // The same place, another strength.
    pub fn with(self, strength: u32) -> Ask
        requires { strength < 16 }
        ensures { (strength_asked result ≡ strength) × (result.code ≡ self.code / 16 * 16 + strength) × Passes (λ c. c) self strength result }
    {
        Ask {
            code: self.code / QUERY * QUERY + strength,
        }
    }

    pub fn deeper(self, strength: u32) -> Ask
        requires { Shallow self × (strength < 16) }
        ensures { Passes deeper self strength result }
    {
        Ask {
            code: self.with(strength).code + LEVEL,
        }
    }

    // Within a query that opens here.
    pub fn opened(self) -> Ask
        requires { (strength_asked self ≡ 0) × (queries_of self < 16) }
        ensures { OpensOne self result }
    {
        Ask {
            code: self.code + QUERY + 1,
        }
    }
}
