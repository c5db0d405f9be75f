// A text of rows.
use crate::fault::SheetFault;
use crate::row::Row;
use sel_base::{NoMemory, Shelf};
use std::alloc::Global;

// A line and its number.
#[derive(Clone, Copy)]
struct Line<'t> {
    at: usize,
    text: &'t str,
}

// What was read: the lines that hold for each row, the rows before the last one, and the last one.
#[derive(Drop)]
struct Sheet<'t> {
    given: Vec<Line<'t>>,
    rows: Vec<Row<'t>>,
    last: Option<Row<'t>>,
}

impl<'t> Sheet<'t> {
    // The last row has all its lines.
    fn close(&mut self) -> Result<(), NoMemory> {
        if let Some(row) = self.last.take() {
            self.rows.push(row)?;
        }
        Ok(())
    }

    fn begin<S: Shelf>(
        &mut self,
        alloc: Global,
        shelf: &mut S,
        at: usize,
        name: &'t str,
    ) -> Result<(), SheetFault> {
        self.close()?;
        let mut row = Row::new(alloc, at, name);
        for line in self.given.as_slice() {
            row.take_line(alloc, shelf, line.at, line.text)?;
        }
        row.begin(alloc)?;
        self.last = Some(row);
        Ok(())
    }

    fn take<S: Shelf>(
        &mut self,
        alloc: Global,
        shelf: &mut S,
        at: usize,
        text: &'t str,
    ) -> Result<(), SheetFault> {
        if text == "given" {
            self.close()?;
            self.given.clear();
            return Ok(());
        }
        if text == "row" {
            return self.begin(alloc, shelf, at, "");
        }
        if let Some(name) = text.strip_prefix("row ") {
            return self.begin(alloc, shelf, at, name);
        }
        match &mut self.last {
            Some(row) => row.take_line(alloc, shelf, at, text),
            None => {
                self.given.push(Line { at, text })?;
                Ok(())
            }
        }
    }
}

/// The rows of a text. Lines behind `given` hold for each row behind them, up to the next `given`. Files that
/// lie beside the text are read from the shelf.
pub fn read_rows<'t, S: Shelf>(
    alloc: Global,
    shelf: &mut S,
    text: &'t str,
) -> Result<Vec<Row<'t>>, SheetFault> {
    let mut sheet = Sheet {
        given: Vec::new(alloc),
        rows: Vec::new(alloc),
        last: None,
    };
    for (at, line) in text.split('\n').enumerate() {
        sheet.take(alloc, shelf, at, line)?;
    }
    sheet.close()?;
    Ok(sheet.rows)
}
