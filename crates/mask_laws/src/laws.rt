//! Laws of masks, each the contract of a function that does nothing.

ghost use Rattle.mask_laws.specs.Layers.{LayeredLaw, LineLaw, LayerOrderLaw, LayersFitLaw};
ghost use Rattle.mask_laws.specs.Idles.{IdleLayeredLaw};
ghost use Rattle.mask_laws.specs.Masks.{MaskingLaw, GateLaw};
ghost use Rattle.mask_laws.specs.Controls.{ControlLaw, ControlGateLaw};

/// Acts that share their first ops do what one act with all ops does, but for the act in the key, and load no other cells.
pub fn layered_law()
    ensures { LayeredLaw }
{}

/// A fault of acts that share their first ops has the line of the layer that has its op.
pub fn line_law()
    ensures { LineLaw }
{}

/// Of acts that share their first ops, no earlier one has a later op first.
pub fn layer_order_law()
    ensures { LayerOrderLaw }
{}

/// Where one act with all ops fits a loop, acts do that share their first ops.
pub fn layers_fit_law()
    ensures { LayersFitLaw }
{}

/// Acts that share their first ops, behind one that puts the negative of the number of its position, do what one act with all ops does over
/// the memory that it leaves.
pub fn idle_layered_law()
    ensures { IdleLayeredLaw }
{}

/// A loop that saves a mask leaves its truth at each position, or has the key of its first fault.
pub fn masking_law()
    ensures { MaskingLaw }
{}

/// A loop that first tests a saved mask goes on exactly at the positions where the mask is true.
pub fn gate_law()
    ensures { GateLaw }
{}

/// A loop that saves a mask under a control leaves 1 or 0 where the control is true, and the negative of its number at any other position.
pub fn control_law()
    ensures { ControlLaw }
{}

/// A cell of a mask that was saved under a control is 1 exactly at the positions of the mask's block, and 0 exactly at those that ELSEWHERE
/// takes up.
pub fn control_gate_law()
    ensures { ControlGateLaw }
{}
