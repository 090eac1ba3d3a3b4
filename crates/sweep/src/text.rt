// What is told of a refused request, built as one text, so that one write tells it.
// Promised: Told of specs/Text.antt.
ghost use Rattle.sweep.specs.Text.{Told};

use wording::pieces::Text;

pub fn refusal_text(k: u64, number: u64) -> Text<59>
    ensures { Told k number result }
{
    let mut text = Text::new();
    text.put(b"request ");
    text.put_number(k);
    text.put(b": refusal ");
    text.put_number(number);
    text.put(b"\n");
    text
}
