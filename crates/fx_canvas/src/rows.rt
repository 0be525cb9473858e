//! Rows of pixels, each with its printed text, which is kept as long as nothing is written to the row.
ghost use Rattle.std.specs.Prelude.{◌≡◌, ◌≤◌, IfOk, OnOk, false};
ghost use Rattle.fx_canvas.specs.Surfaces.{white_line};
ghost use Rattle.fx_pens.specs.Dots.{IsInk, IsLaid, IsPen, is_in};
ghost use Rattle.fx_pens.specs.Shapes.{AreColumns, LieWithin, plain_pen};
ghost use Rattle.fx_picture.specs.Shapes.{bounds, color_of, holds};
ghost use Rattle.fx_row_text.specs.Rows.{row_text};

use fx_base::Steps;
use fx_lanes::equal;
use fx_pens::{Brush, Columns, Pen, lay_span};
use fx_row_text::print_row;
use std::alloc::{AllocError, Global};
use std::marker::Model;
use std::sync::ledger::Ledger;

/// The colour of a pixel before anything is laid over it, as 0x00RRGGBB.
const WHITE: u32 = 0x00ff_ffff;

/// One row. Its text is read only where it isn't stale.
#[derive(Drop)]
pub(crate) struct Row {
    pixels: Vec<u32>,
    text: Vec<u8>,
    stale: bool,
}

impl Model for Row {
    ghost use Rattle.fx_canvas.specs.Surfaces.{IsTold, Line};

    ghost Value = { Line };

    ghost view = { λ r. record { pixels = r.pixels.items; stale = r.stale } };

    ghost invariant = { λ r. IsTold r.stale r.text.items r.pixels.items };
}

impl Row {
    /// A white row.
    pub(crate) fn new(alloc: Global, width: usize) -> Result<Row, AllocError>
        ensures { IfOk result (λ row. row ≡ white_line width) }
    {
        Ok(Row {
            pixels: vec![in alloc; WHITE; width]?,
            text: Vec::new(alloc),
            stale: true,
        })
    }

    pub(crate) fn pixels(&self) -> &[u32]
        ensures { result.now ≡ self.now.pixels }
    {
        self.pixels.as_slice()
    }

    /// Paints row `y` of a brush's shape, from one column on and before another.
    #[inline(always)]
    pub(crate) fn lay<P: Ledger>(
        &mut self,
        part: Columns,
        y: u32,
        brush: &Brush<'_>,
        painted: &mut Steps<P>,
    )
        requires columns { AreColumns part self.old.pixels }
        requires bounds { LieWithin (bounds brush.now) part y }
        ensures { IsLaid (plain_pen part (color_of brush.now)) (λ x. holds brush.now x y)
            self.old.pixels self.new.pixels painted.old painted.new }
    {
        self.stale = true;
        brush.lay(self.pixels.as_mut_slice(), part, y, painted);
    }

    /// Paints some of the pen's columns in an opaque colour.
    #[inline(always)]
    pub(crate) fn fill<P: Ledger>(
        &mut self,
        pen: &Pen,
        pixel: u32,
        run: Columns,
        painted: &mut Steps<P>,
    )
        requires pen { IsPen pen.now self.old.pixels }
        requires ink { IsInk pen.now.color pixel }
        requires left { pen.now.left ≤ run.left }
        requires rises { run.left ≤ run.right }
        requires right { run.right ≤ pen.now.right }
        ensures { IsLaid pen.now (is_in run.left run.right) self.old.pixels self.new.pixels painted.old painted.new }
    {
        self.stale = true;
        lay_span(
            self.pixels.as_mut_slice(),
            pen,
            Some(pixel),
            run.left,
            run.right,
            painted,
        );
    }

    /// Makes the text anew where it is stale. Want of memory leaves it stale.
    pub(crate) fn refresh(&mut self) -> Result<(), AllocError>
        ensures fresh { OnOk result (self.new.stale ≡ false) }
        ensures pixels { self.new.pixels ≡ self.old.pixels }
    {
        if self.stale {
            print_row(&mut self.text, self.pixels.as_slice())?;
            self.stale = false;
        }
        Ok(())
    }

    /// Makes the text anew where it is stale: where the row shows what a fresh row shows, its text is a copy of that
    /// row's. Want of memory leaves it stale.
    pub(crate) fn refresh_below(&mut self, above: &Row) -> Result<(), AllocError>
        requires { above.now.stale ≡ false }
        ensures fresh { OnOk result (self.new.stale ≡ false) }
        ensures pixels { self.new.pixels ≡ self.old.pixels }
    {
        if !self.stale || !equal(self.pixels(), above.pixels()) {
            return self.refresh();
        }
        self.text.clear();
        self.text.extend_from_slice(above.text())?;
        self.stale = false;
        Ok(())
    }

    pub(crate) fn text(&self) -> &[u8]
        requires { self.now.stale ≡ false }
        ensures { result.now ≡ row_text self.now.pixels }
    {
        self.text.as_slice()
    }
}
