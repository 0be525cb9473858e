//! The lines of a demo's files that have numbers in them.
//! Each is written at the end of a text, with the line feed that ends it.
ghost use Rattle.std.specs.Prelude.{◌≡◌, ◌++◌, ◌≤◌, OnOk, string_bytes};
ghost use Rattle.fx_gen.specs.Demo.{box_line, class_line, ended, label, listen_line, set_line, width};

use std::alloc::AllocError;

#[tactic(auto, unfolding(crate::specs::Demo::label))]
pub(crate) fn put_label(out: &mut String, index: u32, digit: u32) -> Result<(), AllocError>
    ensures { OnOk result (string_bytes out.new ≡ string_bytes out.old ++ ended (label index digit)) }
{
    write!(
        out,
        "<Label fx:id=\"n{index}\" text=\"{index}\" prefWidth=\""
    )?;
    put_width(out, index, digit)?;
    writeln!(out, "\"/>")
}

#[tactic(auto, unfolding(crate::specs::Demo::width))]
fn put_width(out: &mut String, index: u32, digit: u32) -> Result<(), AllocError>
    ensures { OnOk result (string_bytes out.new ≡ string_bytes out.old ++ width index digit) }
{
    if index == 0 {
        return write!(out, "{digit}");
    }
    let before = index - 1;
    write!(out, "${{n{before}.prefWidth % 7 + {digit}}}")
}

#[tactic(auto, unfolding(crate::specs::Demo::box_line))]
pub(crate) fn put_box_line(out: &mut String, group: u32) -> Result<(), AllocError>
    ensures { OnOk result (string_bytes out.new ≡ string_bytes out.old ++ ended (box_line group)) }
{
    writeln!(out, "<HBox fx:id=\"h{group}\">")
}

#[tactic(auto, unfolding(crate::specs::Demo::set_line))]
pub(crate) fn put_set_line(out: &mut String, digit: u32) -> Result<(), AllocError>
    ensures { OnOk result (string_bytes out.new ≡ string_bytes out.old ++ ended (set_line digit)) }
{
    writeln!(out, "set n0.prefWidth {digit}")
}

#[tactic(auto, unfolding(crate::specs::Demo::class_line))]
pub(crate) fn put_class_line(out: &mut String, group: u32) -> Result<(), AllocError>
    ensures { OnOk result (string_bytes out.new ≡ string_bytes out.old ++ ended (class_line group)) }
{
    writeln!(out, "class h{group} hot")
}

#[tactic(auto, unfolding(crate::specs::Demo::listen_line))]
pub(crate) fn put_listen_line(out: &mut String, number: u32) -> Result<(), AllocError>
    requires { 1 ≤ number }
    ensures { OnOk result (string_bytes out.new ≡ string_bytes out.old ++ ended (listen_line number)) }
{
    let last = number - 1;
    writeln!(out, "listen change n{last}.prefWidth")
}
