mod asking;
mod playing;
mod receipts;
