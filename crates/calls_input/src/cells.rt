// The cells of what a caller keeps: README's table of places.
ghost use Rattle.std.specs.Prelude.{◌≡◌, ℕ};
ghost use Rattle.calls_input.specs.Input.{refiner_place, refiner_cells, refiner_has, smoother_place, smoother_cells, smoother_has};

use bounds::{BODIES, COLUMNS, FILTERS, OWNERS, PARTS, REFINER, SMOOTHER, VALUES, WINDOW};

// Where a cell of the refiner's caller stands: among the refiner's fields, or in one of the arrays of its memory.
#[derive(Clone, Copy)]
pub enum RefinerPlace {
    Fields,
    Bodies,
    Columns,
    Owners,
    Parts,
    Filters,
}

// Where a cell of the smoother's caller stands: among the smoother's fields, or among the window's words or numbers.
#[derive(Clone, Copy)]
pub enum SmootherPlace {
    Fields,
    Window,
    Values,
}

// One cell, and what is written there.
#[derive(Clone, Copy)]
pub struct Cell<P> {
    pub place: P,
    pub index: usize,
    pub value: u64,
}

// There is no place of this number.
#[derive(Clone, Copy)]
pub struct NoPlace;

// A place by its number, and which cells a caller has there.
pub trait Place: TryFrom<u64, Error = NoPlace> + Copy {
    ghost use Rattle.std.specs.Prelude.{Bool, Result};
    ghost use Rattle.calls_input.specs.declared.cells.Cell.{Cell};
    ghost use Rattle.calls_input.specs.declared.cells.NoPlace.{NoPlace};

    ghost place: { ℕ → Result Self NoPlace };

    ghost cells: { Self → ℕ };

    ghost has: { Cell Self → Bool };

    // How many cells it has.
    fn cells(self) -> usize
        ensures { result ≡ cells self };

    // The caller has this cell.
    // As it is: in each impl. By default it would need a second function, of what a cell can hold, which asks something
    // of one place of nine.
    fn has(cell: Cell<Self>) -> bool
        ensures { result ≡ has cell };

    // What is read by a number is its place.
    ghost reads: { (n : ℕ) (r : Result Self NoPlace) → Self.try_from_gives n r → r ≡ place n };
}

// A place by its number.
impl TryFrom<u64> for RefinerPlace {
    type Error = NoPlace;

    ghost try_from_gives = { λ n r. r ≡ refiner_place n };

    fn try_from(n: u64) -> Result<RefinerPlace, NoPlace> {
        match n {
            0 => Ok(RefinerPlace::Fields),
            1 => Ok(RefinerPlace::Bodies),
            2 => Ok(RefinerPlace::Columns),
            3 => Ok(RefinerPlace::Owners),
            4 => Ok(RefinerPlace::Parts),
            5 => Ok(RefinerPlace::Filters),
            _ => Err(NoPlace),
        }
    }
}

impl TryFrom<u64> for SmootherPlace {
    type Error = NoPlace;

    ghost try_from_gives = { λ n r. r ≡ smoother_place n };

    fn try_from(n: u64) -> Result<SmootherPlace, NoPlace> {
        match n {
            0 => Ok(SmootherPlace::Fields),
            1 => Ok(SmootherPlace::Window),
            2 => Ok(SmootherPlace::Values),
            _ => Err(NoPlace),
        }
    }
}

impl Place for RefinerPlace {
    ghost place = { refiner_place };

    ghost cells = { refiner_cells };

    ghost has = { refiner_has };

    ghost reads = { λ n r e. e };

    fn cells(self) -> usize {
        match self {
            RefinerPlace::Fields => REFINER,
            RefinerPlace::Bodies => BODIES,
            RefinerPlace::Columns => COLUMNS,
            RefinerPlace::Owners => OWNERS,
            RefinerPlace::Parts => PARTS,
            RefinerPlace::Filters => FILTERS,
        }
    }

    // A byte of bodies is at most 255.
    fn has(cell: Cell<RefinerPlace>) -> bool
        ensures { result ≡ refiner_has cell }
    {
        cell.index < cell.place.cells()
            && match cell.place {
                RefinerPlace::Bodies => cell.value <= 255,
                _ => true,
            }
    }
}

impl Place for SmootherPlace {
    ghost place = { smoother_place };

    ghost cells = { smoother_cells };

    ghost has = { smoother_has };

    ghost reads = { λ n r e. e };

    fn cells(self) -> usize {
        match self {
            SmootherPlace::Fields => SMOOTHER,
            SmootherPlace::Window => WINDOW,
            SmootherPlace::Values => VALUES,
        }
    }

    fn has(cell: Cell<SmootherPlace>) -> bool
        ensures { result ≡ smoother_has cell }
    {
        cell.index < cell.place.cells()
    }
}
