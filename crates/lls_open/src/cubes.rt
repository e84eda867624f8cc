// The cubes of a transition's tables where the rule is open, taken once for all places.
ghost use Rattle.std.specs.Prelude.{◌≡◌, map, IfOk};
ghost use Rattle.lls_open.specs.Cubes.{class_cubes, AreCubes};

use crate::SideClass;
use crate::table::{class_table, settled_table};
use lls_base::Memory;
use lls_cube::Cube;
use lls_encode::cubes_in;
use lls_problem::Form;
use lls_rule::Rule;
use std::alloc::Global;

/// The cubes of the table of ten inputs, and those of each open class's table.
#[derive(Drop)]
pub(crate) struct OpenCubes {
    pub(crate) settled: Vec<Cube>,
    pub(crate) by_class: Vec<Vec<Cube>>,
}

// The cubes of each class's table.
fn cubes_by_class(
    alloc: Global,
    form: Form,
    classes: &[SideClass],
) -> Result<Vec<Vec<Cube>>, Memory>
    ensures { IfOk result (λ cubes. map (λ some. some.items) cubes.items ≡ map (class_cubes form) classes.now) }
{
    let mut cubes = Vec::new(alloc);
    for class in classes {
        cubes.push(cubes_in(alloc, form, &class_table(*class))?)?;
    }
    Ok(cubes)
}

/// The cubes that the form takes of each table.
pub(crate) fn open_cubes(
    alloc: Global,
    form: Form,
    low: &Rule,
    classes: &[SideClass],
) -> Result<OpenCubes, Memory>
    ensures { IfOk result (λ cubes. AreCubes form low.now classes.now cubes) }
{
    Ok(OpenCubes {
        settled: cubes_in(alloc, form, &settled_table(low, classes))?,
        by_class: cubes_by_class(alloc, form, classes)?,
    })
}
