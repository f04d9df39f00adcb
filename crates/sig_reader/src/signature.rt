//! Signatures as values (ECMA-335 II.23.2).

use bound_base::Items;
use sqlite_items::Boxed;

/// A list of types.
pub type TypeSigs = Items<TypeSig>;

/// A list of unsigned numbers.
pub type U32s = Items<u32>;

/// A list of signed numbers.
pub type I32s = Items<i32>;

/// A type in a signature (II.23.2.10 to II.23.2.12). Custom modifiers leave no trace in it.
///
/// A token is a table's number in its highest byte and a row below it, as elsewhere in metadata: row 0
/// where the blob names a row above 2^24 - 1.
#[cycle(signature)]
#[derive(Debug, Drop)]
pub enum TypeSig {
    /// A type without further parts, by its element type (II.23.1.16): `void`, the primitive types,
    /// `string`, `object`, typed references and native integers.
    Prim(u8),
    /// A class or a value type of a token: whether VALUETYPE was written, and the token.
    Named(bool, u32),
    /// A pointer; what it points to may be `void`.
    Ptr(Boxed<TypeSig>),
    /// A managed pointer: of a parameter, a result or a local.
    ByRef(Boxed<TypeSig>),
    /// An array of one dimension that begins at 0.
    Vector(Boxed<TypeSig>),
    /// A pinned local.
    Pinned(Boxed<TypeSig>),
    /// An array of a shape (II.23.2.13): its elements, its rank, and the sizes and lower bounds that
    /// are written, at most as many as the rank.
    Array(Boxed<TypeSig>, u32, U32s, I32s),
    /// A generic type, a `Named` one, and its arguments.
    Inst(Boxed<TypeSig>, TypeSigs),
    /// A generic parameter of a type, from 0.
    Var(u32),
    /// A generic parameter of a method, from 0.
    MVar(u32),
    /// A pointer to a function.
    FnPtr(Boxed<Sig>),
}

/// The signature of a method (II.23.2.1 and II.23.2.2).
#[cycle(signature)]
#[derive(Debug, Drop)]
pub struct Sig {
    /// Whether it is called on an object.
    pub has_this: bool,
    /// Whether it takes more arguments than it has parameters. Where such a signature says at which
    /// parameter they begin is not kept.
    pub vararg: bool,
    /// How many generic parameters it has.
    pub generic: u32,
    pub result: TypeSig,
    pub params: TypeSigs,
}
