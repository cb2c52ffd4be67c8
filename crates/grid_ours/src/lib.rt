// The form reader's table for the lines of a sheet of our own.
#![tactic(auto)]

ghost use Rattle.forms.specs.declared.House.TheVariants.{Ours};
ghost use Rattle.read_form.specs.Grid.{Tables};

use read_form::{FormReader, Grid};

pub mod tables;

// stays: a table for each house, each in a crate of its own, whose check has the computed test that it is the house's grid.
static GRID: Grid = tables::TABLE;

pub fn reader() -> FormReader<'static>
    ensures { Tables Ours result.grid.now result.classes.now }
{
    FormReader {
        grid: &GRID,
        classes: read_form::class_table(),
    }
}
