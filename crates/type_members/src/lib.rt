//! The members of the types of an assembly: what member tokens find, what may stand for what, and which method answers a call
//! (ECMA-335 II.10, II.12, II.22).
#![tactic(auto)]

mod core_members;
mod edges;
mod keys;
mod laws;
mod literals;
mod member;
mod member_refs;
mod members;
mod method_keys;
mod methods;
mod slots;
mod spelling;
mod table_numbers;
mod virtual_calls;

pub use core_members::{CoreMember, CorePart, MemberKind, core_member};
pub use laws::{
    handle_is_a_core_member, plain_methods_answer_themselves, subtypes_are_reflexive,
    subtypes_compose,
};
pub use member::{Member, Unresolved};
pub use member_refs::find_core_member;
pub use members::Members;
