//! Which of a worker's connections are to go on in its turn.

/// A mark for each cell.
#[derive(Drop)]
pub(crate) struct Marks {
    cells: Vec<bool>,
    any: bool,
}

impl Marks {
    /// No cell is marked.
    pub(crate) fn new(cells: Vec<bool>) -> Marks {
        Marks { cells, any: false }
    }

    /// Marks a cell.
    pub(crate) fn mark(&mut self, cell: usize) {
        if let Some(mark) = self.cells.get_mut(cell) {
            *mark = true;
            self.any = true;
        }
    }

    /// Marks all cells.
    pub(crate) fn mark_all(&mut self) {
        self.cells.fill(true);
        self.any = true;
    }

    /// Whether a cell was marked since the marks were gone over last.
    pub(crate) fn any(&self) -> bool {
        self.any
    }

    /// The marks are gone over now.
    pub(crate) fn begin(&mut self) {
        self.any = false;
    }

    /// Takes the mark of a cell off. Whether it was marked.
    pub(crate) fn take(&mut self, cell: usize) -> bool {
        match self.cells.get_mut(cell) {
            Some(mark) => {
                let was = *mark;
                *mark = false;
                was
            }
            None => false,
        }
    }
}
