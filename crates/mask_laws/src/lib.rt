//! Masks: direct ones as acts that share their first ops, and saved ones, also under a control. Read `specs/Layers.antt`, then
//! `specs/Controls.antt`.
#![tactic(auto)]

mod laws;

pub use laws::{
    control_gate_law, control_law, gate_law, idle_layered_law, layer_order_law, layered_law,
    layers_fit_law, line_law, masking_law,
};
