//! The play tables of a gallery.
ghost use Rattle.std.specs.Prelude.{None};
ghost use Rattle.fixed_angle.specs.FirstFault.{FirstFault};
ghost use Rattle.fixed_angle.specs.TableFile.{table_conditions};
ghost use Rattle.gallery_gen.specs.Tables.{tables_bytes};

/// Each condition on a file of play tables holds of those that every gallery has.
pub fn tables_are_read()
    ensures { FirstFault (table_conditions tables_bytes) None }
{}
