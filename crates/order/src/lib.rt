// The order in which a call's arguments are moved: its definition is in specs/, and what it does is proved here.
#![tactic(auto)]

pub mod theorems;
