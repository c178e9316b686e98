//! Signatures, and certificates of them.
use std::alloc::{AllocError, Global};

/// A certificate: the signature, and the rest, which is its pools, entries and trees, up to the end.
pub type Cert = (&'static str, &'static str);

/// Negation.
pub const NOT: &str = "\
signature 1
vars 1
size 3
width 2
budget 10
pairs 20
pools given
sort B
con F
con T
fun not B -> B
match 0
case F = T
case T = F
explore not
pool
values B F T
end
";

/// Its certificate.
pub const NOT_CERT: Cert = (
    NOT,
    "\
pool
values B F T
spread B.0
live B.0
spread not B.0
live not B.0
law 1 saturated not (not B.0) = B.0
killed not (not B.0) = B.0
step - 1 lr B.0 B.0
tree B
split 0 2
class 1
leaf 1
class 2
leaf 2
end
",
);

/// Conjunction.
pub const AND: &str = "\
signature 1
vars 2
size 3
width 2
budget 10
pairs 20
pools given
sort B
con F
con T
fun and B B -> B
match 0
case F = F
case T = #1
explore and
pool
values B F T
end
";

/// Its certificate.
pub const AND_CERT: Cert = (AND, AND_REST);

const AND_REST: &str = "\
pool
values B F T
spread B.0
live B.0
live B.1
spread and B.0 B.0
law 1 saturated and B.0 B.0 = B.0
moved and B.0 B.0 = B.0
step - 1 lr B.0 B.0
live and B.0 B.1
law 2 saturated and B.1 B.0 = and B.0 B.1
moved and B.1 B.0 = and B.0 B.1
step - 2 lr B.0 B.0 B.1 B.1
moved and B.1 B.1 = B.1
step - 1 lr B.0 B.1
tree B
class 1 2
split 1 2
leaf 1
split 2 2
leaf 2
leaf 3
end
";

/// Conjunction in version 2: numbers for each sort.
pub const AND_2: &str = "\
signature 2
size 3
budget 10
pairs 20
pools given
sort B 2 2
con F
con T
fun and B B -> B
match 0
case F = F
case T = #1
explore and
pool
values B F T
end
";

/// Its certificate.
pub const AND_2_CERT: Cert = (AND_2, AND_REST);

/// Conjunction in version 3: a weight for each symbol.
pub const AND_3: &str = "\
signature 3
size 3
budget 10
pairs 20
pools given
sort B 2 2
con 1 F
con 1 T
fun 1 and B B -> B
match 0
case F = F
case T = #1
explore and
pool
values B F T
end
";

/// Its certificate.
pub const AND_3_CERT: Cert = (AND_3, AND_REST);

/// The first of two.
pub const FIRST: &str = "\
signature 1
vars 2
size 3
width 2
budget 10
pairs 20
pools given
sort B
con F
con T
fun k B B -> B
body = #0
explore k
pool
values B F T
end
";

/// Its certificate.
pub const FIRST_CERT: Cert = (
    FIRST,
    "\
pool
values B F T
spread B.0
live B.0
live B.1
law 1 saturated k B.0 B.1 = B.0
killed k B.0 B.1 = B.0
step - 1 lr B.0 B.0 B.1 B.1
tree B
class 1
split 1 2
leaf 1
leaf 2
end
",
);

/// Addition, within three steps.
pub const PLUS: &str = "\
signature 1
vars 2
size 3
width 2
budget 3
pairs 20
pools given
sort Nat
con Z
con S Nat
fun plus Nat Nat -> Nat
match 0
case Z = #1
case S = S (plus @0 #1)
explore plus
pool
values Nat Z (S Z)
end
";

/// Its certificate.
pub const PLUS_CERT: Cert = (
    PLUS,
    "\
pool
values Nat Z (S Z)
spread Nat.0
live Nat.0
live Nat.1
spread plus Nat.0 Nat.0
live plus Nat.0 Nat.0
live plus Nat.0 Nat.1
law 1 saturated plus Nat.1 Nat.0 = plus Nat.0 Nat.1
moved plus Nat.1 Nat.0 = plus Nat.0 Nat.1
step - 1 lr Nat.0 Nat.0 Nat.1 Nat.1
live plus Nat.1 Nat.1
tree Nat
split 3 2
class 1
split 1 2
leaf 1
leaf 2
class 2
split 1 3
leaf 3
leaf 4
leaf 5
end
",
);

/// Rotations of three places.
pub const ROTATIONS: &str = "\
signature 1
vars 1
size 3
width 3
budget 10
pairs 100
pools given
sort M
con P0
con P1
con P2
fun f M -> M
match 0
case P0 = P1
case P1 = P2
case P2 = P0
fun g M -> M
match 0
case P0 = P2
case P1 = P0
case P2 = P1
explore f g
pool
values M P0 P1 P2
end
";

/// Its certificate.
pub const ROTATIONS_CERT: Cert = (
    ROTATIONS,
    "\
pool
values M P0 P1 P2
spread M.0
live M.0
spread f M.0
live f M.0
spread g M.0
live g M.0
law 1 saturated f (f M.0) = g M.0
killed f (f M.0) = g M.0
step - 1 lr M.0 M.0
lemma 2 g (f M.0) = f (g M.0)
step - 1 rl M.0 (f M.0)
step 0 1 lr M.0 M.0
law 3 saturated f (g M.0) = M.0
killed f (g M.0) = M.0
step - 3 lr M.0 M.0
killed g (f M.0) = M.0
step - 2 lr M.0 M.0
step - 3 lr M.0 M.0
lemma 4 g (g M.0) = f M.0
step - 1 rl M.0 (g M.0)
step 0 3 lr M.0 M.0
killed g (g M.0) = f M.0
step - 4 lr M.0 M.0
tree M
split 0 3
class 1
leaf 1
class 2
leaf 2
class 3
leaf 3
end
",
);

/// A sort with one value.
pub const ONE_VALUE: &str = "\
signature 1
vars 2
size 1
width 1
budget 10
pairs 20
pools given
sort U
con O
explore O
pool
values U O
end
";

/// Its certificate.
pub const ONE_VALUE_CERT: Cert = (
    ONE_VALUE,
    "\
pool
values U O
spread U.0
live U.0
law 1 saturated U.1 = U.0
moved U.1 = U.0
step - 1 lr U.0 U.0 U.1 U.1
killed O = U.0
step - 1 lr U.0 U.0 U.1 O
tree U
class 1
leaf 1
end
",
);

/// A sort with one value, and a function that costs two steps.
pub const CONSTANT: &str = "\
signature 1
vars 2
size 2
width 1
budget 2
pairs 20
pools given
sort U
con O
fun f U -> U
body = O
explore O f
pool
values U O
end
";

/// Its certificate.
pub const CONSTANT_CERT: Cert = (
    CONSTANT,
    "\
pool
values U O
spread U.0
live U.0
law 1 saturated U.1 = U.0
moved U.1 = U.0
step - 1 lr U.0 U.0 U.1 U.1
killed O = U.0
step - 1 lr U.0 U.0 U.1 O
killed f U.0 = U.0
step - 1 lr U.0 U.0 U.1 (f U.0)
tree U
class 1
leaf 1
end
",
);

/// Another certificate of it, in which no schema is killed.
pub const MOVED_CERT: Cert = (
    CONSTANT,
    "\
pool
values U O
spread U.0
live U.0
law 1 saturated U.1 = U.0
moved U.1 = U.0
step - 1 lr U.0 U.0 U.1 U.1
spread O
moved O = U.0
step - 1 lr U.0 U.0 U.1 O
spread f U.0
moved f U.0 = U.0
step - 1 lr U.0 U.0 U.1 (f U.0)
spread f O
tree U
class 1 2 3 4
leaf 1
end
",
);

/// Two sorts and pools from a seed; `zero` costs four steps at a successor.
pub const SEEDED: &str = "\
signature 3
size 3
budget 4
pairs 20
pools seed 1 height 3 count 2
sort N 1 2
con 1 Z
con 1 S N
sort B 1 2
con 1 F
con 1 T
fun 1 not B -> B
match 0
case F = T
case T = F
fun 1 zero N -> B
match 0
case Z = T
case S = not T
explore not zero
end
";

/// Its certificate.
pub const SEEDED_CERT: Cert = (
    SEEDED,
    "\
pool
values N (S (S Z)) Z
values B F F
pool
values N Z Z
values B T F
spread N.0
live N.0
spread B.0
live B.0
spread not B.0
live not B.0
spread zero N.0
live zero N.0
law 1 saturated not (not B.0) = B.0
killed not (not B.0) = B.0
step - 1 lr B.0 B.0
spread not (zero N.0)
live not (zero N.0)
tree N
class 1
leaf 1
tree B
split 0 2
split 1 2
class 2
leaf 2
class 4
leaf 4
split 1 2
class 3
leaf 3
class 5
leaf 5
end
",
);

/// Two sorts; `pair` costs four steps at `T` and three at `F`.
pub const PAIRS: &str = "\
signature 2
size 3
budget 4
pairs 20
pools given
sort B 2 2
con F
con T
sort P 0 1
con Pair B B
fun same B -> B
body = #0
fun pair B B -> P
match 0
case F = Pair F #1
case T = Pair (same T) #1
explore pair
pool
values B F T
values P (Pair F F)
end
";

/// Its certificate.
pub const PAIRS_CERT: Cert = (
    PAIRS,
    "\
pool
values B F T
values P (Pair F F)
spread B.0
live B.0
live B.1
spread pair B.0 B.0
live pair B.0 B.0
live pair B.0 B.1
live pair B.1 B.0
live pair B.1 B.1
tree B
class 1
split 1 2
leaf 1
leaf 2
tree P
class 2
split 1 4
leaf 3
leaf 4
leaf 5
leaf 6
end
",
);

/// The text of a certificate.
pub fn text_of(alloc: Global, cert: Cert) -> Result<String, AllocError> {
    let (signature, rest) = cert;
    format!(in alloc; "certificate 1\n{signature}{rest}")
}
