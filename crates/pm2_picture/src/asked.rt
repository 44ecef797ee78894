//! What the words of the command line ask for.

ghost use Rattle.std.specs.Prelude.{◌≡◌, map};
ghost use Rattle.std.specs.String.{string_bytes};
ghost use Rattle.pm2_picture.specs.Words.{form_of, option, window_of, asked};

use crate::number::number_in;
use pictures::Window;

/// What a picture is written as.
#[derive(Clone, Copy)]
pub enum Form {
    Svg,
    Paje,
}

/// A picture: what it is written as, and which stamps it shows.
#[derive(Clone, Copy)]
pub struct Asked {
    pub form: Form,
    pub window: Window,
}

/// By the ending of a file's name.
fn form_of(name: &str) -> Option<Form>
    ensures { result ≡ form_of name.now }
{
    let bytes = name.as_bytes();
    if &bytes[bytes.len().saturating_sub(4)..] == b".svg".as_slice() {
        return Some(Form::Svg);
    }
    if &bytes[bytes.len().saturating_sub(5)..] == b".paje".as_slice() {
        return Some(Form::Paje);
    }
    None
}

/// The window with an option more.
fn option(name: &str, value: &str, window: &Window) -> Option<Window>
    ensures { result ≡ option name.now value.now window.now }
{
    if name == "--from" {
        let from = number_in(value)?;
        return Some(Window {
            from,
            to: window.to,
        });
    }
    if name == "--to" {
        let to = number_in(value)?;
        return Some(Window {
            from: window.from,
            to,
        });
    }
    None
}

/// The window of at most two options.
fn window_of(options: &[String]) -> Option<Window>
    ensures { result ≡ window_of (map string_bytes options.now) }
{
    let all = Window {
        from: 0,
        to: u64::MAX,
    };
    match options {
        [] => Some(all),
        [a, x] => option(a.as_str(), x.as_str(), &all),
        [a, x, b, y] => {
            let window = option(a.as_str(), x.as_str(), &all)?;
            option(b.as_str(), y.as_str(), &window)
        }
        _ => None,
    }
}

/// A picture in this file, with these options behind the two names.
pub(crate) fn picture_asked(out: &str, options: &[String]) -> Option<Asked>
    ensures { result ≡ asked out.now (map string_bytes options.now) }
{
    let form = form_of(out)?;
    let window = window_of(options)?;
    Some(Asked { form, window })
}
