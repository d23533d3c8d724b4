// The numbers of a field, from its number: that of F_t is t.
ghost use Rattle.std.specs.Prelude.{◌≡◌, ◌+◌, ◌^◌, ◌≤◌};
ghost use Rattle.fermat.specs.Field.{modulus, transform_length, scale};

// How often the length N is halved down to 1: a transform makes as many passes.
pub fn halvings_of(field: usize) -> u32
    requires { field ≤ 5 }
    ensures { result ≡ field + 1 }
{
    field as u32 + 1
}

// The bits below the highest one of the modulus.
pub fn bits_of(field: usize) -> u32
    requires { field ≤ 5 }
    ensures { result ≡ 2 ^ field }
{
    1u32 << (field as u32)
}

// N.
pub fn transform_length(field: usize) -> usize
    requires { field ≤ 5 }
    ensures { result ≡ transform_length field }
{
    1usize << halvings_of(field)
}

pub fn modulus_of(field: usize) -> u64
    requires { field ≤ 5 }
    ensures { result ≡ modulus field }
{
    (1u64 << bits_of(field)) + 1
}

// 1/N.
pub fn scale_of(field: usize) -> u64
    requires { field ≤ 5 }
    ensures { result ≡ scale field }
{
    let rest = bits_of(field) - halvings_of(field);
    modulus_of(field) - (1u64 << rest)
}
