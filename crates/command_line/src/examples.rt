// What the definition says of plain words and numbers.
ghost use Rattle.std.specs.Prelude.{◌≡◌, None, Some, codes};
ghost use Rattle.graph_core.specs.declared.order.Order.TheVariants.{Interleaved, Separate};
ghost use Rattle.graph_core.specs.declared.sign.Sign.TheVariants.{Signed, Unsigned};
ghost use Rattle.graph_core.specs.Graph.Operands.{adding, multiplying};
ghost use Rattle.graph_maker.specs.declared.adder.Adder.TheVariants.{Kogge, Ripple};
ghost use Rattle.graph_maker.specs.declared.design.Design.TheVariants.{Corrected, Multiplier, MultiplyAdd, OfWidths};
ghost use Rattle.graph_maker.specs.declared.kind.Kind.TheVariants.{Array, Dadda};
ghost use Rattle.command_line.specs.declared.command.Command.TheVariants.{Eval, Make, Trial};
ghost use Rattle.command_line.specs.Asked.{AsksTrim, IsCheck, asked, making_of};
ghost use Rattle.command_line.specs.Examples.{NamesAreChecked, NumbersAreNumerals, WidthsAreNumerals, adding_to_24x17, g_c_a, g_c_a_x_y, check_interleaved, check_interleaved_widths, check_signed_sum, check_widths, check_g, make_array, make_widths, make_widths_add, make_corrected, make_dadda_add, make_corrected_add, eval_addend, one_two_three, trial_of_21, trim_interleaved, trim_to};

/// `mulver check` with any three names asks for `check` of these files: that the graph multiplies unsigned operands
/// under `separate`. With an order, a kind of operands, `--add` or widths after them it asks for that claim, and for
/// nothing with one name, or for operands of given widths that are interleaved. Widths are two numerals with an x
/// between them. `make corrected` takes no `--add`, nor does `make` of two widths. `trim` is asked for like `check`,
/// with two names more, neither of which may be another of the five.
pub fn plain_words()
    ensures names { NamesAreChecked }
    ensures numbers { NumbersAreNumerals }
    ensures widths { WidthsAreNumerals }
    ensures interleaved { IsCheck check_interleaved g_c_a (multiplying Interleaved Unsigned) }
    ensures signed_sum { IsCheck check_signed_sum g_c_a (adding Separate Signed) }
    ensures wide { IsCheck check_widths g_c_a adding_to_24x17 }
    ensures wide_interleaved { asked check_interleaved_widths ≡ None }
    ensures made { asked make_array ≡ Some (Make (making_of (Multiplier Array) 64 Ripple) (codes "x")) }
    ensures made_wide { asked make_widths ≡ Some (Make (making_of (OfWidths Dadda 17) 24 Kogge) (codes "x")) }
    ensures no_wide_sum { asked make_widths_add ≡ None }
    ensures corrected { asked make_corrected ≡ Some (Make (making_of Corrected 8 Kogge) (codes "x")) }
    ensures sum { asked make_dadda_add ≡ Some (Make (making_of (MultiplyAdd Dadda) 8 Kogge) (codes "x")) }
    ensures no_sum { asked make_corrected_add ≡ None }
    ensures added { asked eval_addend ≡ Some (Eval (codes "g") one_two_three) }
    ensures tried { asked trial_of_21 ≡ Some (Trial 21) }
    ensures too_few { asked check_g ≡ None }
    ensures trimmed { AsksTrim trim_interleaved g_c_a_x_y (multiplying Interleaved Unsigned) }
    ensures over_graph { asked (trim_to (codes "g") (codes "y")) ≡ None }
    ensures over_clauses { asked (trim_to (codes "x") (codes "c")) ≡ None }
    ensures twice { asked (trim_to (codes "x") (codes "x")) ≡ None }
{}
