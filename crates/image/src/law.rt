// The law of images.
ghost use Rattle.image.specs.Law.{ImageLaw};

// What is written reads back, and what reads back was written so. The law is this function's contract.
pub fn image_law() -> u8
    ensures { ImageLaw }
{
    0
}
