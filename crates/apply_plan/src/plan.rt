//! How a saved plan is read.

pub mod actions;
pub mod change_slots;
pub mod element;
pub mod element_member;
pub mod element_slots;
pub mod elements;
pub mod id_slots;
pub mod plan_error;
pub mod plan_slots;
pub mod planned;
pub mod planned_change;
pub mod reading;
