//! Lines of words, paths and texts alone: the first word, and what stands behind it.
use crate::printed::Printed;
use fx_base::Text;
use fx_script_lines::Instruction;
use std::alloc::AllocError;

pub fn put_instruction(out: &mut Printed, line: &Instruction) -> Result<(), AllocError> {
    match line {
        Instruction::Prop(name, kind, rest) => {
            out.words("prop", &[name.as_str(), kind.as_str(), rest.as_str()])
        }
        Instruction::Set(name, rest) => out.path("set", name, &[rest.as_str()]),
        Instruction::Get(name) => out.path("get", name, &[]),
        Instruction::Unbind(name) => out.path("unbind", name, &[]),
        Instruction::Pair(one, other) => out.paths("pair", one, other, &[]),
        Instruction::Unpair(one, other) => out.paths("unpair", one, other, &[]),
        Instruction::Owner(label) => out.words("owner", &[label.as_str()]),
        Instruction::Release(label) => out.words("release", &[label.as_str()]),
        _ => put_listener(out, line),
    }
}

fn put_listener(out: &mut Printed, line: &Instruction) -> Result<(), AllocError> {
    match line {
        Instruction::Listen(notice, name, label) => {
            out.path("listen", name, &[notice.as_str(), label_of(label)])
        }
        Instruction::Unlisten(notice, name, label) => {
            out.path("unlisten", name, &[notice.as_str(), label_of(label)])
        }
        Instruction::Watch(notice, name, action, label) => {
            out.path(
                "watch",
                name,
                &[notice.as_str(), action.as_str(), label_of(label)],
            )
        }
        Instruction::Unwatch(notice, name, action, label) => {
            out.path(
                "unwatch",
                name,
                &[notice.as_str(), action.as_str(), label_of(label)],
            )
        }
        _ => put_node(out, line),
    }
}

/// The label, or nothing where there is none.
fn label_of(label: &Option<Text>) -> &str {
    match label {
        Some(label) => label.as_str(),
        None => "",
    }
}

fn put_node(out: &mut Printed, line: &Instruction) -> Result<(), AllocError> {
    match line {
        Instruction::New(class, id) => out.words("new", &[class.as_str(), id.as_str()]),
        Instruction::Attach(parent, child, place) => {
            out.paths("attach", parent, child, &[place.as_str()])
        }
        Instruction::Detach(id) => out.path("detach", id, &[]),
        Instruction::Drop(id) => out.path("drop", id, &[]),
        Instruction::Class(id, word) => out.path("class", id, &[word.as_str()]),
        Instruction::Unclass(id, word) => out.path("unclass", id, &[word.as_str()]),
        Instruction::Style(id, rest) => out.path("style", id, &[rest.as_str()]),
        Instruction::Pseudo(id, word, switch) => {
            out.path("pseudo", id, &[word.as_str(), switch.as_str()])
        }
        _ => put_handler(out, line),
    }
}

fn put_handler(out: &mut Printed, line: &Instruction) -> Result<(), AllocError> {
    match line {
        Instruction::Constrain(id, word, rest) => {
            out.path("constrain", id, &[word.as_str(), rest.as_str()])
        }
        Instruction::Explain(id, name) => out.path("explain", id, &[name.as_str()]),
        Instruction::Handle(id, event, action) => {
            out.path("handle", id, &[event.as_str(), action.as_str()])
        }
        Instruction::Filter(id, event, action) => {
            out.path("filter", id, &[event.as_str(), action.as_str()])
        }
        Instruction::Say(rest) => out.words("say", &[rest.as_str()]),
        Instruction::Consume => out.put("consume"),
        _ => put_input(out, line),
    }
}

fn put_input(out: &mut Printed, line: &Instruction) -> Result<(), AllocError> {
    match line {
        Instruction::Move(x, y) => out.words("move", &[x.as_str(), y.as_str()]),
        Instruction::Press => out.put("press"),
        Instruction::ReleaseButton => out.put("release-button"),
        Instruction::Key(word) => out.words("key", &[word.as_str()]),
        Instruction::Focus(id) => out.path("focus", id, &[]),
        Instruction::Tab => out.put("tab"),
        Instruction::Backtab => out.put("backtab"),
        Instruction::Resize(width, height) => {
            out.words("resize", &[width.as_str(), height.as_str()])
        }
        Instruction::Pulse => out.put("pulse"),
        _ => put_timeline(out, line),
    }
}

fn put_timeline(out: &mut Printed, line: &Instruction) -> Result<(), AllocError> {
    match line {
        Instruction::Timeline(label, count, reverse) => {
            let last = if *reverse { "reverse" } else { "" };
            out.words("timeline", &[label.as_str(), count.as_str(), last])
        }
        Instruction::Keyframe(label, time, name, rest) => {
            out.path(
                "keyframe",
                name,
                &[label.as_str(), time.as_str(), rest.as_str()],
            )
        }
        Instruction::Play(label) => out.words("play", &[label.as_str()]),
        Instruction::Stop(label) => out.words("stop", &[label.as_str()]),
        Instruction::Tick(time) => out.words("tick", &[time.as_str()]),
        _ => Ok(()),
    }
}
