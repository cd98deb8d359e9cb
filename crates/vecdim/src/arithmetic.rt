// Arithmetic of the parts of vectors.
ghost use Rattle.std.specs.Prelude.{◌≡◌, ◌≤◌, ◌*◌, ◌^◌, ◌+ℤ◌, ◌-ℤ◌, ◌*ℤ◌, neg_ℤ, unsigned_abs};

// a + b.
pub(crate) fn sum(a: i128, b: i128) -> i128
    requires a { unsigned_abs a ≤ 2 ^ 126 }
    requires b { unsigned_abs b ≤ 2 ^ 125 }
    ensures { result ≡ a +ℤ b }
{
    a + b
}

// a - b.
pub(crate) fn difference(a: i128, b: i128) -> i128
    requires a { unsigned_abs a ≤ 2 ^ 126 }
    requires b { unsigned_abs b ≤ 2 ^ 125 }
    ensures { result ≡ a -ℤ b }
{
    a - b
}

// -a.
pub(crate) fn negative(a: i128) -> i128
    requires { unsigned_abs a ≤ 2 ^ 126 }
    ensures { result ≡ neg_ℤ a }
{
    -a
}

// a·b.
pub(crate) fn product(a: i128, b: i128) -> i128
    requires a { unsigned_abs a ≤ 2 ^ 84 }
    requires b { unsigned_abs b ≤ 2 ^ 41 }
    ensures value { result ≡ a *ℤ b }
    ensures within { unsigned_abs result ≤ 2 ^ 125 }
{
    a * b
}

// a·b - c·d.
pub(crate) fn minor(a: i128, b: i128, c: i128, d: i128) -> i128
    requires a { unsigned_abs a ≤ 2 ^ 62 }
    requires b { unsigned_abs b ≤ 2 ^ 62 }
    requires c { unsigned_abs c ≤ 2 ^ 62 }
    requires d { unsigned_abs d ≤ 2 ^ 62 }
    ensures { result ≡ a *ℤ b -ℤ c *ℤ d }
{
    difference(multiple(a, b), multiple(c, d))
}

// a + b + c.
pub(crate) fn sum_of_three(a: i128, b: i128, c: i128) -> i128
    requires a { unsigned_abs a ≤ 2 ^ 125 }
    requires b { unsigned_abs b ≤ 2 ^ 125 }
    requires c { unsigned_abs c ≤ 2 ^ 125 }
    ensures { result ≡ a +ℤ b +ℤ c }
{
    a + b + c
}

// a·b, for numbers of about the same size.
pub(crate) fn multiple(a: i128, b: i128) -> i128
    requires a { unsigned_abs a ≤ 2 ^ 62 }
    requires b { unsigned_abs b ≤ 2 ^ 62 }
    ensures value { result ≡ a *ℤ b }
    ensures within { unsigned_abs result ≤ 2 ^ 124 }
{
    a * b
}

// a·b, if the product has room.
pub(crate) fn exact_product(a: i128, b: i128) -> i128
    requires { unsigned_abs (a *ℤ b) ≤ 2 ^ 126 }
    ensures { result ≡ a *ℤ b }
{
    a * b
}
