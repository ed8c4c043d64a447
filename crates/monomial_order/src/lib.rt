//! Monomials and their orders.
#![tactic(auto)]

pub mod laws;
mod monomials;
mod order_fault;
mod orders;
mod out_of_memory;
mod places;
mod rows;
mod sums;
mod terms;
mod tie_break;
mod weight_order;
mod word_order;

pub use monomials::Monomial;
pub use order_fault::OrderFault;
pub use orders::Order;
pub use out_of_memory::Memory;
pub use rows::Row;
pub use terms::Term;
pub use tie_break::Tie;
pub use weight_order::WeightOrder;
pub use word_order::WordOrder;
